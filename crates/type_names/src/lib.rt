//! The names of types and RCODEs in texts (RFC 1035, sections 3.2.2 and 4.1.1; RFC 3597, section
//! 5).
#![tactic(auto)]

mod kinds;
mod rcodes;

pub use kinds::{kind_text, read_kind};
pub use rcodes::{rcode_text, read_rcode};
