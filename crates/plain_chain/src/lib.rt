//! What a datagram means under a configuration by a list of marks, and how that is decided: slow,
//! and apart from what serves, so that serving can be held against it.
#![tactic(auto)]

mod arriving;
mod asking;
mod caching;
mod deciding;
mod evaluating;
mod fault;
mod meant;
mod noting;
mod reaching;
mod reading;
mod restoring;
mod rulings;
mod saying;
mod serving;
mod tracing;
mod translating;
mod turning;

pub use arriving::{Arrival, Course, arrive, course_of};
pub use asking::Asking;
pub use fault::PlainFault;
pub use meant::bare_reply;
pub use reading::{PlainRead, plain_read};
pub use rulings::{NoRulings, Rulings};
pub use serving::{Plain, plain_serve};
pub use tracing::trace_chain;
pub use turning::{PlainTurn, plain_turn};
