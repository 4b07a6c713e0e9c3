//! Asks of upstreams over sockets: datagrams over UDP, and messages over connections that are kept
//! (RFC 7766); how long each may take, and random words.
#![tactic(auto)]

mod asker;
mod deadline;
mod lines;
mod room;
mod stream;
mod timing;
mod timings;
mod trip;
mod words;

pub use asker::Asker;
pub use timing::Timing;
pub use timings::Timings;
pub use trip::Trip;
pub use words::Words;
