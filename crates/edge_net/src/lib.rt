//! The real sides of the server: datagrams over UDP, and messages over many TCP connections
//! (RFC 7766).
#![tactic(auto)]

mod arrival;
mod clock;
mod crew;
mod crowd;
mod descriptors;
mod loans;
mod pause;
mod peer;
mod side;
mod start;
mod tally;
mod tcp;
mod udp;

pub use arrival::Arrival;
pub use clock::moment;
pub use crew::Crew;
pub use descriptors::first_kept;
pub use loans::Loans;
pub use pause::longer;
pub use side::{End, NetSide};
pub use start::give_up;
pub use tally::{Tally, count};
pub use tcp::TcpEnd;
pub use udp::UdpEnd;
