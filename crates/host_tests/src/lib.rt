//! Tests of the outside and its hosts in memory, and of frames and connections over TCP. They stand
//! here, since a crate with tests is proved once more for them.
#![tactic(auto)]

#[cfg(test)]
mod asks;
#[cfg(test)]
mod connections;
#[cfg(test)]
mod frames;
#[cfg(test)]
mod lending;
#[cfg(test)]
mod memory_host;
#[cfg(test)]
mod memory_side;
#[cfg(test)]
mod memory_watch;
#[cfg(test)]
mod outside_values;
#[cfg(test)]
mod scripts;
#[cfg(test)]
mod sockets;
#[cfg(test)]
mod starting;
