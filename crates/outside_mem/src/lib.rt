//! An outside in memory: sides, a watch and a host that follow their scripts, and tell what they
//! did.
#![tactic(auto)]

mod calls;
mod faults;
mod feed;
mod host;
mod marks;
mod never_side;
mod never_watch;
mod readings;
mod side;
mod telling;
mod told;
mod watch;
mod watch_feed;

pub use host::MemHost;
pub use never_side::NeverSide;
pub use never_watch::NeverWatch;
pub use side::MemSide;
pub use told::{OpenedSide, ToldLine};
pub use watch::MemWatch;
