//! The plugin `dns64`: clients with IPv6 alone reach names that have addresses of IPv4 (RFC 6147).
#![tactic(auto)]

mod asking;
mod options;
mod plan;
mod prefixes;
mod reading;
mod replying;
pub mod ttl;

pub use asking::a_query;
pub use plan::Dns64Plan;
pub use replying::{clear_for_second, needs_second, ptr_answer};
