//! `sinkhole ADDRESS`, a plugin as a program of its own would bring it: it answers every question
//! for an IPv4 address with one, and passes all others.
#![tactic(auto)]

mod sinkhole;

pub use sinkhole::{Sinkhole, SinkholeBook};
