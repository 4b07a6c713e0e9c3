//! A side round another one, which keeps the marks of what its worker did and saw.
#![tactic(auto)]

mod keeping;
mod marking;
mod recording;

pub use recording::{Marks, Recording};
