//! What a block reads, and whether two blocks read the same.
#![tactic(auto)]

mod comparing;

pub use comparing::{BlockIn, read_the_same};
