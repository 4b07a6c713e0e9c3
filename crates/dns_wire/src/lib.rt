//! Messages of the DNS as bytes (RFC 1035, section 4): queries and replies are read.
#![tactic(auto)]

mod asked;
mod character_string;
mod cursor;
mod fault;
mod header;
mod known;
mod learning;
mod message;
mod name;
mod number;
mod query;
mod rdata;
mod record;
mod reply;
mod section;
mod sequence;

pub use asked::{Asked, AskedBeside, read_asked, read_asked_into};
pub use fault::{Head, QueryFault, WireFault};
pub use header::Flags;
pub use query::read_query;
pub use reply::read_reply;
