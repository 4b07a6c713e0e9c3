//! Tests of the order in which workers and watch of a server go on, over hosts in memory whose
//! sides wait for one another, of runs with extras, of runs where nothing fails, and of loads.
#![tactic(auto)]

#[cfg(test)]
mod extras;
#[cfg(test)]
mod loads;
#[cfg(test)]
mod never;
#[cfg(test)]
mod never_host;
#[cfg(test)]
mod orders;
#[cfg(test)]
mod replies;
#[cfg(test)]
mod runs;
#[cfg(test)]
mod scripts;
#[cfg(test)]
mod spoken;
#[cfg(test)]
mod stage;
#[cfg(test)]
mod staged_host;
#[cfg(test)]
mod staged_side;
#[cfg(test)]
mod staged_watch;
#[cfg(test)]
mod stocks;
#[cfg(test)]
mod telling_host;
#[cfg(test)]
mod voice;
