//! The plugin `file`: zones from zone files, which answer with authority.
#![tactic(auto)]

mod choice;
mod fault;
mod loading;
mod plan;
mod reading;
mod served;

pub use choice::{FileSay, decide, zone_for};
pub use fault::FileFault;
pub use plan::FilePlan;
pub use served::ServedZone;
