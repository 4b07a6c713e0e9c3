//! The sockets of a port: at every address of both families, or of IPv4 alone where the system has
//! no IPv6.
ghost use Rattle.std.specs.Prelude.{◌≤◌};

use crate::calls::PATIENCE;
use crate::sender::{V4_LEN, V6_LEN};
use crate::why::Why;
use dns_data::{Addr, Transport};
use libc::net as c;
use os::FromRawFd;
use std::net::{Ipv4Addr, Ipv6Addr, Net, SocketAddr, TcpListener, UdpSocket};
use std::os::fd::{AsRawFd, OwnedFd};
use std::time::Duration;

// 1 MiB: at the system's own size many clients at once overflow it.
const RECEIVE_BYTES: i32 = 1_048_576;

// How many connections may wait to be accepted. The system may allow fewer.
const WAITING: i32 = 1_024;

#[derive(Clone, Copy, Debug)]
pub(crate) enum Family {
    Both,
    V4,
}

/// A socket for datagrams at a port, with a receive buffer of 1 MiB where the system grants it. A
/// receive waits for a second, so that the end of a run is seen and the addresses of the host are
/// looked at now and then.
pub fn open_udp(_net: &impl Net, port: u16) -> Result<UdpSocket, Why> {
    waiting(UdpSocket::from(open_any(Transport::Udp, port)?))
}

/// One more socket for datagrams at a port that this one has. The system gives the datagrams of
/// each client to one of them.
pub fn open_udp_beside(_net: &impl Net, first: &UdpSocket, port: u16) -> Result<UdpSocket, Why> {
    let family = match first.local_addr() {
        Ok(SocketAddr::V4(_)) => Family::V4,
        Ok(SocketAddr::V6(_)) => Family::Both,
        Err(fault) => return Err(Why::of_error(&fault)),
    };
    share_port(first);
    let socket = new_socket(family, Transport::Udp)?;
    share_port(&socket);
    bind_any(&socket, family, port)?;
    waiting(UdpSocket::from(socket))
}

/// Sends an empty datagram to a port from within, by a socket of its own. It tells no failure.
pub fn poke(_net: &impl Net, port: u16) {
    if !poke_at(Family::Both, SocketAddr::from((Ipv6Addr::LOCALHOST, port))) {
        poke_at(Family::V4, SocketAddr::from((Ipv4Addr::LOCALHOST, port)));
    }
}

// Whether the system took an empty datagram.
fn poke_at(family: Family, to: SocketAddr) -> bool {
    match new_socket(family, Transport::Udp) {
        Ok(socket) => UdpSocket::from(socket).send_to(&[], to).is_ok(),
        Err(_) => false,
    }
}

// A socket with a receive buffer of 1 MiB, whose receives wait for a second.
fn waiting(socket: UdpSocket) -> Result<UdpSocket, Why> {
    widen(&socket);
    match socket.set_read_timeout(Some(Duration::from_millis(u64::from(PATIENCE)))) {
        Ok(()) => Ok(socket),
        Err(fault) => Err(Why::of_error(&fault)),
    }
}

/// Lets further sockets of this user have the port. Where the system refuses, they can't be bound.
pub fn share_port(socket: &impl AsRawFd) {
    let value = value_of(1);
    // SAFETY: the descriptor is that of a socket which is open for the whole call.
    let _ = unsafe {
        c::setsockopt(
            socket.as_raw_fd(),
            c::SOL_SOCKET,
            c::SO_REUSEPORT,
            &value,
            4,
        )
    };
}

/// A socket for datagrams at a port of one address, beside one at every address.
pub fn open_udp_at(_net: &impl Net, addr: Addr, port: u16) -> Result<UdpSocket, Why> {
    let socket = UdpSocket::from(new_socket(family_of(addr), Transport::Udp)?);
    share_port(&socket);
    bind_at(&socket, addr, port)?;
    widen(&socket);
    Ok(socket)
}

/// A socket for datagrams at a port of one address, where nobody else has it. A receive waits for a
/// second.
pub fn open_udp_alone(_net: &impl Net, addr: Addr, port: u16) -> Result<UdpSocket, Why> {
    let socket = UdpSocket::from(new_socket(family_of(addr), Transport::Udp)?);
    bind_at(&socket, addr, port)?;
    waiting(socket)
}

/// A listener for connections at a port of one address.
pub fn open_tcp_at(_net: &impl Net, addr: Addr, port: u16) -> Result<TcpListener, Why> {
    let socket = new_socket(family_of(addr), Transport::Tcp)?;
    take_again(&socket)?;
    bind_at(&socket, addr, port)?;
    check(c::listen(socket.as_raw_fd(), WAITING))?;
    Ok(TcpListener::from(socket))
}

pub(crate) fn family_of(addr: Addr) -> Family {
    match addr {
        Addr::V4(_) => Family::V4,
        Addr::V6(_) => Family::Both,
    }
}

// Gives a socket of the address's family the port at it.
fn bind_at(socket: &impl AsRawFd, addr: Addr, port: u16) -> Result<(), Why> {
    // SAFETY: the descriptor is that of a socket which is open for the whole call.
    check(unsafe { c::bind(socket.as_raw_fd(), &spelt(addr, port), len_of(addr)) })
}

// How many bytes spell an address with its port.
pub(crate) fn len_of(addr: Addr) -> u32
    ensures { result ≤ 128 }
{
    match addr {
        Addr::V4(_) => V4_LEN,
        Addr::V6(_) => V6_LEN,
    }
}

// A port whose last connections still wait for late bytes may be taken again.
fn take_again(socket: &impl AsRawFd) -> Result<(), Why> {
    let value = value_of(1);
    // SAFETY: the descriptor is that of a socket which is open for the whole call.
    check(unsafe {
        c::setsockopt(
            socket.as_raw_fd(),
            c::SOL_SOCKET,
            c::SO_REUSEADDR,
            &value,
            4,
        )
    })
}

fn widen(socket: &UdpSocket) {
    let value = value_of(RECEIVE_BYTES);
    // SAFETY: the descriptor is that of a socket which is open for the whole call.
    let _ = unsafe { c::setsockopt(socket.as_raw_fd(), c::SOL_SOCKET, c::SO_RCVBUF, &value, 4) };
}

/// A listener for connections at a port.
pub fn open_tcp(_net: &impl Net, port: u16) -> Result<TcpListener, Why> {
    let socket = open_any(Transport::Tcp, port)?;
    check(c::listen(socket.as_raw_fd(), WAITING))?;
    Ok(TcpListener::from(socket))
}

// A port that is taken or forbidden is not tried in one family alone.
fn open_any(by: Transport, port: u16) -> Result<OwnedFd, Why> {
    match open_at(Family::Both, by, port) {
        Ok(socket) => Ok(socket),
        Err(why) => match why {
            Why::InUse | Why::Denied => Err(why),
            _ => open_at(Family::V4, by, port),
        },
    }
}

// A socket that has the port, at every address of the family.
fn open_at(family: Family, by: Transport, port: u16) -> Result<OwnedFd, Why> {
    let socket = new_socket(family, by)?;
    if by == Transport::Tcp {
        take_again(&socket)?;
    }
    bind_any(&socket, family, port)?;
    Ok(socket)
}

// Gives a socket the port, at every address of the family.
fn bind_any(socket: &OwnedFd, family: Family, port: u16) -> Result<(), Why> {
    let fd = socket.as_raw_fd();
    let (every, len) = match family {
        Family::Both => {
            // The system's own setting may keep IPv4 out.
            // SAFETY: the descriptor is that of a socket which is open for the whole call.
            check(unsafe { c::setsockopt(fd, c::IPPROTO_IPV6, c::IPV6_V6ONLY, &value_of(0), 4) })?;
            (Addr::V6(0), V6_LEN)
        }
        Family::V4 => (Addr::V4(0), V4_LEN),
    };
    // SAFETY: as above.
    check(unsafe { c::bind(fd, &spelt(every, port), len) })
}

fn new_socket(family: Family, by: Transport) -> Result<OwnedFd, Why> {
    // SAFETY: the call takes numbers alone.
    let fd = unsafe {
        match (family, by) {
            (Family::Both, Transport::Udp) => {
                c::socket(c::AF_INET6, c::SOCK_DGRAM | c::SOCK_CLOEXEC, 0)
            }
            (Family::Both, Transport::Tcp) => {
                c::socket(c::AF_INET6, c::SOCK_STREAM | c::SOCK_CLOEXEC, 0)
            }
            (Family::V4, Transport::Udp) => {
                c::socket(c::AF_INET, c::SOCK_DGRAM | c::SOCK_CLOEXEC, 0)
            }
            (Family::V4, Transport::Tcp) => {
                c::socket(c::AF_INET, c::SOCK_STREAM | c::SOCK_CLOEXEC, 0)
            }
        }
    };
    owned(fd)
}

// A descriptor that was just opened, or why it wasn't.
pub(crate) fn owned(fd: i32) -> Result<OwnedFd, Why> {
    if fd < 0 {
        return Err(Why::of(os::errno()));
    }
    // SAFETY: the descriptor was just opened, and nothing else has it.
    Ok(unsafe { OwnedFd::from_raw_fd(fd) })
}

// An address and a port as the system spells them: C's `sockaddr_in` and `sockaddr_in6`.
pub(crate) fn spelt(addr: Addr, port: u16) -> [u8; 128] {
    let mut bytes = [0u8; 128];
    bytes[2..4].copy_from_slice(&port.to_be_bytes());
    match addr {
        Addr::V4(number) => {
            bytes[0] = c::AF_INET as u8;
            bytes[4..8].copy_from_slice(&number.to_be_bytes());
        }
        Addr::V6(number) => {
            bytes[0] = c::AF_INET6 as u8;
            bytes[8..24].copy_from_slice(&number.to_be_bytes());
        }
    }
    bytes
}

// An option's number.
pub(crate) fn value_of(number: i32) -> [u8; 16] {
    let mut value = [0u8; 16];
    value[..4].copy_from_slice(&number.to_ne_bytes());
    value
}

// What a call's status says.
pub(crate) fn check(status: i32) -> Result<(), Why> {
    if status < 0 {
        return Err(Why::of(os::errno()));
    }
    Ok(())
}
