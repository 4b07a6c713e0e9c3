//! The plugin `hosts`: names and addresses from a hosts file, and from lines of the directive.
#![tactic(auto)]

mod answering;
mod file;
mod index;
mod listing;
mod options;
mod plan;
mod reading;
mod same;
mod say;
mod table;
mod words;

pub use plan::HostsPlan;
pub use say::{HostsSay, decide};
