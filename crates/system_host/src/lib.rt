//! The host over the system: sockets, files, and the standard streams; and the words and the
//! environment of a program that runs over it.
#![tactic(auto)]

mod endpoint;
mod given;
mod host;
mod random_word;
mod reading;
mod threads;
mod watch;

pub use given::{Unheard, environment, words};
pub use host::SystemHost;
pub use reading::{Unread, read_regular};
pub use watch::FileWatch;
