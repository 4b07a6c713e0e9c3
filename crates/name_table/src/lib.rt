//! Names to numbers: a hash table over wire formats, which also finds the longest suffix that it
//! has.
#![tactic(auto)]

mod entry;
mod hash;
mod table;

pub use table::{Longest, NameTable};
