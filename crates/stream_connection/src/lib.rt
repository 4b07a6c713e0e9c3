//! The bytes of one TCP connection, without its socket (RFC 7766): the messages of those that came,
//! the replies that wait to go out, and when it is closed.
#![tactic(auto)]

mod backlog;
mod bounds;
mod connection;

pub use backlog::Backlog;
pub use bounds::Bounds;
pub use connection::{Connection, Next, Replied};
