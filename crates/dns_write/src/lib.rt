//! Messages of the DNS as bytes (RFC 1035, section 4): messages are written.
#![tactic(auto)]

mod bytes;
mod layout;
mod listing;
mod offsets;
mod plan;
mod tail;
mod ttls;
mod write;
mod write_record;
mod writer;

pub use tail::Tail;
pub use write::{MessageParts, write_aged, write_lent, write_message, write_parts};
