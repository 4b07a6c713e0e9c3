//! The address of a datagram's sender, as the system spells it and as a client is told.
ghost use Rattle.std.specs.Prelude.{◌≡◌, ◌≤◌, ◌+◌, replicate};
ghost use Rattle.edge_sockets.specs.Sender.{u16_at, u32_at, family_of, v6_of, client_of, nobody};

use dns_data::Addr;
use libc::net as c;

/// Who sent a datagram.
#[derive(Clone, Copy, Debug, PartialEq, Eq)]
pub struct Client {
    pub address: Addr,
    pub port: u16,
}

impl Client {
    /// Nobody, before the first message.
    pub fn nobody() -> Client
        ensures { result ≡ nobody }
    {
        Client {
            address: Addr::V4(0),
            port: 0,
        }
    }
}

/// The size of C's `sockaddr_in`.
pub(crate) const V4_LEN: u32 = 16;

/// The size of C's `sockaddr_in6`.
pub(crate) const V6_LEN: u32 = 28;

#[inline]
fn u16_at(bytes: &[u8; 128], at: usize) -> u16
    requires { at + 2 ≤ 128 }
    ensures { result ≡ u16_at bytes.now at }
{
    256 * bytes[at] as u16 + bytes[at + 1] as u16
}

#[inline]
#[tactic(auto, unfolding(crate::specs::Sender::u32_at))]
fn u32_at(bytes: &[u8; 128], at: usize) -> u32
    requires { at + 4 ≤ 128 }
    ensures { result ≡ u32_at bytes.now at }
{
    65536 * u16_at(bytes, at) as u32 + u16_at(bytes, at + 2) as u32
}

#[inline]
fn family_of(bytes: &[u8; 128]) -> u16
    ensures { result ≡ family_of bytes.now }
{
    bytes[0] as u16 + 256 * bytes[1] as u16
}

#[inline]
fn v6_of(bytes: &[u8; 128]) -> Addr
    ensures { result ≡ v6_of bytes.now }
{
    let (first, second) = (u32_at(bytes, 8), u32_at(bytes, 12));
    let (third, fourth) = (u32_at(bytes, 16), u32_at(bytes, 20));
    if first == 0 && second == 0 && third == 65535 {
        return Addr::V4(fourth);
    }
    let unit = 4_294_967_296;
    let upper = unit * first as u128 + second as u128;
    Addr::V6(unit * (unit * upper + third as u128) + fourth as u128)
}

/// The address of a datagram's sender: the first `len` of the bytes, as the system gave them.
#[derive(Drop)]
pub struct Sender {
    pub bytes: [u8; 128],
    pub len: u32,
}

impl Sender {
    /// Nobody, before the first datagram. The system refuses a reply to it.
    pub fn nobody() -> Sender
        ensures bytes { result.bytes ≡ replicate 128 0 }
        ensures len { result.len ≡ 0 }
    {
        Sender {
            bytes: [0; 128],
            len: 0,
        }
    }
}

/// The client whose socket address is the first so many of the bytes. `None` for another family,
/// and for too few bytes.
#[inline(always)]
pub fn client_of(bytes: &[u8; 128], len: u32) -> Option<Client>
    ensures { result ≡ client_of bytes.now len }
{
    let family = family_of(bytes) as i32;
    let port = u16_at(bytes, 2);
    if family == c::AF_INET6 {
        if len < V6_LEN {
            return None;
        }
        return Some(Client {
            address: v6_of(bytes),
            port,
        });
    }
    if family == c::AF_INET && len >= V4_LEN {
        return Some(Client {
            address: Addr::V4(u32_at(bytes, 4)),
            port,
        });
    }
    None
}
