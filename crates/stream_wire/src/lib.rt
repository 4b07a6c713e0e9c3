//! Messages over a stream of bytes, each behind its length in two bytes (RFC 1035, section 4.2.2;
//! RFC 7766, section 8).
#![tactic(auto)]

mod filling;
mod front;
mod reading;
mod sink;
mod source;
mod writing;

pub use front::{Front, first_message};
pub use reading::{Frame, read_frame};
pub use sink::{ByteSink, Gave};
pub use source::{ByteSource, Taken};
pub use writing::write_frame;
