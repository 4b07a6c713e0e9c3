//! The server: words of the command line in, a report out. It reads a Corefile and the files that
//! it names, opens the sides of its ports, and answers each datagram by the meaning of what it
//! read, a worker for each side in a thread of its own, while a watcher takes up what changed.
#![tactic(auto)]

mod ending;
mod finishing;
mod history;
mod loading;
mod reading;
mod report;
mod roles;
mod rooms;
mod running;
mod setup;
mod sides;
mod status;
mod stocking;
mod telling;
mod words;

pub use chain_meaning::Refusal;
pub use report::{Done, LoadRun, Report};
pub use run_meaning::WorkEnd;
pub use status::Status;
pub use telling::tell_status;
pub use words::{run, run_with};
