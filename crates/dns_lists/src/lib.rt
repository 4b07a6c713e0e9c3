//! Lists, texts and bytes, and the bytes of a name, which stand in the value itself where they are
//! few (RFC 1035, section 3.1).
#![tactic(auto)]

mod buffer;
mod bytes;
mod compare;
mod memory;
mod seq;
mod short;
mod text;
mod wire;

pub use buffer::Buffer;
pub use bytes::{Bytes, are_bytes};
pub use compare::are_equal;
pub use memory::NoMemory;
pub use seq::{Copies, Seq};
pub use text::Text;
pub use wire::Wire;
