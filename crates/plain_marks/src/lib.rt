//! What steps that take marks mean by a list of marks: slow, and apart from what serves.
#![tactic(auto)]

mod asking;
mod caching;
mod forwarding;
mod meant;
mod taking;
#[cfg(test)]
mod tests;

pub use caching::{Missed, kept_by, take_look};
pub use forwarding::forwarded;
pub use meant::Meant;
pub use taking::take_note;
