//! What a run is: a worker's turns and how it ended, the looks of a watch and how they end, and
//! which configurations these publish. Over plain data: nothing here knows a pass or a table.
#![tactic(auto)]

mod looking;
mod watch_end;
mod work_end;

pub use looking::{Looking, Ports};
pub use watch_end::WatchEnd;
pub use work_end::WorkEnd;
