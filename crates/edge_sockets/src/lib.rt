//! The calls of the system below the edge: the sockets of a port, datagrams with their senders, the
//! addresses of the host, and the lines and streams for the operator.
#![tactic(auto)]

mod addresses;
mod bell;
mod calls;
mod lines;
mod sender;
mod socket;
mod start;
#[cfg(test)]
mod tests;
mod upstream;
mod why;

pub use addresses::{every_address, host_addresses};
pub use bell::Bell;
pub use calls::{PATIENCE, Unreceived, peer_of, receive, reply_to};
pub use lines::{note_line, tell_line};
pub use sender::{Client, Sender, client_of};
pub use socket::{
    open_tcp, open_tcp_at, open_udp, open_udp_alone, open_udp_at, open_udp_beside, poke, share_port,
};
pub use start::open_standard;
pub use upstream::{
    Awaited, Moved, Readiness, await_socket, is_connected, open_tcp_to, open_udp_to, receive_some,
    send_some,
};
pub use why::{EdgeLine, Why, line_text};
