//! Domain names in one buffer, their presentation format, and the names that stand for addresses
//! (RFC 1035, sections 2.3, 3.1, 3.5 and 5.1).
#![tactic(auto)]

mod ascii;
mod labels;
pub mod limit;
mod name;
mod name_read;
mod name_text;
mod reverse;

pub use ascii::same_letters;
pub use labels::Labels;
pub use name::Name;
pub use name_read::{NameFault, byte_at};
