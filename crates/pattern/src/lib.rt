//! A compiled pattern that may be moved to another thread and shared among threads, and that
//! searches with the caller's scratch.
#![tactic(auto)]

mod automaton;
mod compiled;
mod scratch;

pub use compiled::Pattern;
pub use scratch::Scratch;
