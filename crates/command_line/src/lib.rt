//! The words of the command line: what the program is asked to do.
#![tactic(auto)]

mod bounds;
mod choice;
mod command;
mod given;

pub use bounds::{DEFAULT_PORT, DEFAULT_WORKERS, LOAD, WORKERS};
pub use command::{Command, Serve, read_command};
