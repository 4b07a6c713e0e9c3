//! A hash with a seed, for tables whose keys clients choose.
#![tactic(auto)]

mod hasher;
mod mixing;

pub use hasher::{Seed, SeededHasher};
