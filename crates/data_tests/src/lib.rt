//! Tests of the lists, names and records under the plugins. They stand here, since a crate with tests
//! is proved once more for them.
#![tactic(auto)]

#[cfg(test)]
mod lists;
#[cfg(test)]
mod names;
#[cfg(test)]
mod records;
