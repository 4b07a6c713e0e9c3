//! Addresses of the internet and nets of them, and their texts (RFC 4291, section 2.2; RFC 5952,
//! section 4).
#![tactic(auto)]

mod addr;
mod addr_read;
mod addr_text;
mod cut;
mod groups;
mod net;
mod runs;
mod v4;
mod v6;

pub use addr::Addr;
pub use net::Net;
pub use v4::read_octet;
pub use v6::hex_digit;
