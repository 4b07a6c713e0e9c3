//! The calls of the system by which bytes come with their sender. An address stays in the bytes in
//! which the system gave it, and goes back in them.
ghost use Rattle.std.specs.Prelude.{◌≡◌, ◌≤◌, length, Some, IfOk, IfSome};
ghost use Rattle.edge_sockets.specs.Sender.{client_of};

use crate::sender::{Client, Sender, client_of};
use libc::net as c;
use std::net::UdpSocket;
use std::os::fd::AsRawFd;

const SPACE: u32 = 128;

/// For how long a receive waits, in milliseconds.
pub const PATIENCE: u16 = 1_000;

/// Why no datagram was received. Nothing: none came, as far as the call waited.
#[derive(Clone, Copy, Debug, PartialEq, Eq)]
pub enum Unreceived {
    Nothing,
    Failed,
}

/// Receives a datagram into the packet, and says how many bytes it has. `client` becomes who sent
/// it. It waits as long as the socket does, or not at all. It has failed where the call has, a
/// signal among the reasons, and where the sender has no address of either family.
#[inline(always)]
pub fn receive(
    socket: &UdpSocket,
    packet: &mut [u8],
    from: &mut Sender,
    client: &mut Client,
    waits: bool,
) -> Result<usize, Unreceived>
    ensures count { IfOk result (λ count. count ≤ length packet.new) }
    ensures client { IfOk result (λ _. client_of from.new.bytes from.new.len ≡ Some client.new) }
{
    from.len = SPACE;
    let fd = socket.as_raw_fd();
    // SAFETY: the descriptor is that of a socket which is open for the whole call.
    let got = unsafe {
        if waits {
            c::recvfrom(fd, packet, 0, &mut from.bytes, &mut from.len)
        } else {
            c::recvfrom(fd, packet, c::MSG_DONTWAIT, &mut from.bytes, &mut from.len)
        }
    };
    if got < 0 {
        if os::errno() == libc::EAGAIN {
            return Err(Unreceived::Nothing);
        }
        return Err(Unreceived::Failed);
    }
    match client_of(&from.bytes, from.len) {
        Some(sender) => {
            *client = sender;
            Ok(got as usize)
        }
        None => Err(Unreceived::Failed),
    }
}

/// Sends a reply to the sender, and says whether the system took it.
#[inline]
pub fn reply_to(socket: &UdpSocket, reply: &[u8], to: &Sender) -> bool {
    let len = to.len.min(SPACE);
    // SAFETY: the descriptor is that of a socket which is open for the whole call.
    let put = unsafe { c::sendto(socket.as_raw_fd(), reply, c::MSG_NOSIGNAL, &to.bytes, len) };
    put >= 0
}

/// Who is at the other end of a connection, into `from` as well. `None` where the call fails, as
/// behind a reset, and where that is no address of either family.
pub fn peer_of(stream: &impl AsRawFd, from: &mut Sender) -> Option<Client>
    ensures { IfSome result (λ client. client_of from.new.bytes from.new.len ≡ Some client) }
{
    from.len = SPACE;
    // SAFETY: the descriptor is that of a socket which is open for the whole call.
    let status = unsafe { c::getpeername(stream.as_raw_fd(), &mut from.bytes, &mut from.len) };
    if status < 0 {
        return None;
    }
    client_of(&from.bytes, from.len)
}
