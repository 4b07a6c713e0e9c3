//! Zone files (RFC 1035, section 5.1): the records of a zone, or the first line that is refused.
#![tactic(auto)]

mod entry;
mod fault;
mod kept;
mod key;
mod read;
mod scan;
mod state;

pub use fault::{ZoneFault, ZoneWhy};
pub use read::{ZoneText, read_zone};
