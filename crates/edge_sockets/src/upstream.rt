//! The calls by which an upstream is asked. No socket here waits by itself: `await_socket` does,
//! for as long as its caller says.
ghost use Rattle.std.specs.Prelude.{◌≤◌, length};
ghost use Rattle.edge_sockets.specs.Moves.{MovesAtMost};

use crate::socket::{Family, check, family_of, len_of, owned, spelt, value_of};
use crate::why::Why;
use dns_data::Addr;
use libc::net as c;
use libc::types::pollfd;
use std::net::Net;
use std::os::fd::{AsRawFd, OwnedFd};

/// What a send or a receive gave. Some: so many bytes; none that came over TCP are the end.
/// Blocked: it would have to wait.
#[derive(Clone, Copy, Debug, PartialEq, Eq)]
pub enum Moved {
    Some(usize),
    Blocked,
    Failed,
}

/// What a socket is awaited for.
#[derive(Clone, Copy, Debug, PartialEq, Eq)]
pub enum Awaited {
    Bytes,
    Room,
}

/// What a wait gave. Ready: a call on the socket tells more, where it failed as well. Nothing: the
/// time was up, or a signal came.
#[derive(Clone, Copy, Debug, PartialEq, Eq)]
pub enum Readiness {
    Ready,
    Nothing,
    Failed,
}

/// A socket for the datagrams of one upstream. It gets those of its address and port alone, and is
/// told where the upstream's host refuses the port. Its own port is one that the system picks at
/// random, among those that nobody has (Linux's `net.ipv4.ip_local_port_range`).
pub fn open_udp_to(_net: &impl Net, to: Addr, port: u16) -> Result<OwnedFd, Why> {
    // SAFETY: the call takes numbers alone.
    let fd = unsafe {
        match family_of(to) {
            Family::Both => c::socket(
                c::AF_INET6,
                c::SOCK_DGRAM | c::SOCK_NONBLOCK | c::SOCK_CLOEXEC,
                0,
            ),
            Family::V4 => c::socket(
                c::AF_INET,
                c::SOCK_DGRAM | c::SOCK_NONBLOCK | c::SOCK_CLOEXEC,
                0,
            ),
        }
    };
    let socket = owned(fd)?;
    // SAFETY: the descriptor is that of a socket which is open for the whole call.
    check(unsafe { c::connect(socket.as_raw_fd(), &spelt(to, port), len_of(to)) })?;
    Ok(socket)
}

/// A connection to an upstream that begins. It stands once there is room to send, where
/// `is_connected` says so.
pub fn open_tcp_to(_net: &impl Net, to: Addr, port: u16) -> Result<OwnedFd, Why> {
    // SAFETY: the call takes numbers alone.
    let fd = unsafe {
        match family_of(to) {
            Family::Both => c::socket(
                c::AF_INET6,
                c::SOCK_STREAM | c::SOCK_NONBLOCK | c::SOCK_CLOEXEC,
                0,
            ),
            Family::V4 => c::socket(
                c::AF_INET,
                c::SOCK_STREAM | c::SOCK_NONBLOCK | c::SOCK_CLOEXEC,
                0,
            ),
        }
    };
    let socket = owned(fd)?;
    let fd = socket.as_raw_fd();
    // SAFETY: the descriptor is that of a socket which is open for the whole call.
    let _ = unsafe { c::setsockopt(fd, c::IPPROTO_TCP, c::TCP_NODELAY, &value_of(1), 4) };
    // SAFETY: as above.
    if unsafe { c::connect(fd, &spelt(to, port), len_of(to)) } < 0 {
        let number = os::errno();
        if number != libc::EINPROGRESS {
            return Err(Why::of(number));
        }
    }
    Ok(socket)
}

/// Whether a connection stands, where the system told that there is room to send.
pub fn is_connected(socket: &OwnedFd) -> bool {
    let mut value = value_of(0);
    let mut len = 4;
    // SAFETY: the descriptor is that of a socket which is open for the whole call.
    let status = unsafe {
        c::getsockopt(
            socket.as_raw_fd(),
            c::SOL_SOCKET,
            c::SO_ERROR,
            &mut value,
            &mut len,
        )
    };
    status >= 0 && value[..4] == [0; 4]
}

/// Waits for a socket, for so many milliseconds.
pub fn await_socket(socket: &OwnedFd, what: Awaited, time: u16) -> Readiness {
    let events = match what {
        Awaited::Bytes => c::POLLIN,
        Awaited::Room => c::POLLOUT,
    };
    let mut asked = [pollfd {
        fd: socket.as_raw_fd(),
        events,
        revents: 0,
    }];
    let ready = c::poll(&mut asked, i32::from(time));
    if ready < 0 && os::errno() != libc::EINTR {
        return Readiness::Failed;
    }
    if ready > 0 {
        return Readiness::Ready;
    }
    Readiness::Nothing
}

/// Sends bytes, as far as the system takes them at once.
pub fn send_some(socket: &OwnedFd, bytes: &[u8]) -> Moved
    ensures { MovesAtMost (length bytes.now) result }
{
    // SAFETY: the descriptor is that of a socket which is open for the whole call.
    let put = unsafe { c::send(socket.as_raw_fd(), bytes, c::MSG_NOSIGNAL | c::MSG_DONTWAIT) };
    if put < 0 {
        return unmoved();
    }
    Moved::Some(put as usize)
}

/// Receives bytes into the front of the room, as many as are here.
pub fn receive_some(socket: &OwnedFd, room: &mut [u8]) -> Moved
    ensures { MovesAtMost (length room.new) result }
{
    // SAFETY: the descriptor is that of a socket which is open for the whole call.
    let got = unsafe { c::recv(socket.as_raw_fd(), room, c::MSG_DONTWAIT) };
    if got < 0 {
        return unmoved();
    }
    Moved::Some(got as usize)
}

// Why no byte was moved: a signal is as good as a wait.
fn unmoved() -> Moved
    ensures { MovesAtMost 0 result }
{
    let number = os::errno();
    if number == libc::EAGAIN || number == libc::EINTR {
        return Moved::Blocked;
    }
    Moved::Failed
}
