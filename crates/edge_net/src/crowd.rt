ghost use Rattle.std.specs.Prelude.{◌≤◌, ◌<◌, ◌↔◌, length, IsTrue};
ghost use Rattle.dns_data.specs.declared.limit.TheConstants as limits;
ghost use Rattle.slab.specs.Slab.{slab_len};

use crate::peer::{Peer, Step};
use dns_data::{Addr, Buffer};
use edge_sockets::Client;
use mio::event::Event;
use mio::net::TcpStream;
use mio::{Interest, Registry, Token};
use slab::Slab;
use std::alloc::Global;
use std::os::fd::AsRawFd;
use stream_connection::Bounds;

// Between two walks over all connections, in milliseconds.
const BETWEEN: u64 = 1_000;

/// What a turn gave. Nothing: no message this time.
#[derive(Clone, Copy, Debug, PartialEq, Eq)]
pub(crate) enum Turn {
    Got,
    Nothing,
    NoMemory,
}

/// The connections of one side. Those that may have a message stand in a ring, each once, and give
/// one message at most in their turn.
#[derive(Drop)]
pub(crate) struct Crowd {
    alloc: Global,
    bounds: Bounds,
    // The first descriptor that no connection may have.
    kept: u64,
    peers: Slab<Peer>,
    ready: Vec<usize>,
    // Where the one stands whose turn it is. Where that is behind the last, it is the first's.
    at: usize,
    // Whose message was given last. It is still its turn.
    last: Option<usize>,
    // When all were walked over last.
    walked: u64,
    ghost inside: { slab_len peers ≤ bounds.connections },
}

impl Crowd {
    /// No connections yet. Those to come have descriptors below `kept`.
    pub fn new(alloc: Global, bounds: Bounds, kept: u64) -> Crowd {
        Crowd {
            alloc,
            bounds,
            kept,
            peers: Slab::new(alloc),
            ready: Vec::new(alloc),
            at: 0,
            last: None,
            walked: 0,
        }
    }

    pub fn has_room(&self) -> bool
        ensures { IsTrue result ↔ (slab_len self.now.peers < self.now.bounds.connections) }
    {
        self.bounds.has_room(self.peers.len())
    }

    /// How many connections may have a message.
    pub fn ready(&self) -> usize {
        self.ready.len()
    }

    // Whether a quarter of all that may be open come from the network of this address.
    fn is_crowded(&self, address: Addr) -> bool {
        let most = self.bounds.connections / 4;
        let mut count = 0usize;
        for (_, peer) in &self.peers {
            if is_same_network(peer.client.address, address) {
                count = count.saturating_add(1);
            }
        }
        count >= most
    }

    /// Takes a connection in. One more than may be open is closed, and so is one more than a
    /// quarter of these from one address, an IPv6 network of 64 bits counting as one, and one that
    /// would take a descriptor of those that are kept.
    pub fn add(&mut self, registry: &Registry, mut stream: TcpStream, client: Client, now: u64) {
        if !self.has_room() {
            return;
        }
        let number = u64::from(stream.as_raw_fd().unsigned_abs());
        if number >= self.kept || self.is_crowded(client.address) {
            return;
        }
        let key = self.peers.vacant_key();
        let both = Interest::READABLE | Interest::WRITABLE;
        let _ = stream.set_nodelay(true);
        if registry.register(&mut stream, Token(key), both).is_err() {
            return;
        }
        if self.ready.push(key).is_err() {
            return;
        }
        let _key = self
            .peers
            .insert(Peer::new(self.alloc, stream, client, now));
    }

    /// Is told that something came for a connection, or can go to it. What waits for one that may
    /// have a message goes out with the replies to its burst.
    pub fn wake(&mut self, event: &Event) {
        let key = event.token().0;
        let Some(peer) = self.peers.get_mut(key) else {
            return;
        };
        peer.ending |= event.is_read_closed();
        peer.more |= peer.ending || event.is_readable() || event.is_error();
        if peer.queued {
            return;
        }
        peer.flush();
        peer.queued = self.ready.push(key).is_ok();
    }

    /// The turn of the next connection that may have a message. `client` becomes who sent it.
    pub fn turn(
        &mut self,
        piece: &mut [u8],
        message: &mut Buffer,
        client: &mut Client,
        now: u64,
    ) -> Turn {
        if self.last.take().is_some() {
            self.at = self.at.saturating_add(1);
        }
        if self.at >= self.ready.len() {
            self.at = 0;
        }
        let Some(place) = self.ready.get(self.at) else {
            return Turn::Nothing;
        };
        let key = *place;
        let Some(peer) = self.peers.get_mut(key) else {
            self.leave();
            return Turn::Nothing;
        };
        match peer.step(piece, message, now) {
            Step::Message => {
                *client = peer.client;
                self.last = Some(key);
                return Turn::Got;
            }
            Step::More => self.at = self.at.saturating_add(1),
            Step::Blocked => {
                peer.queued = false;
                self.leave();
            }
            Step::Closed => self.drop_current(key),
            Step::NoMemory => {
                self.drop_current(key);
                return Turn::NoMemory;
            }
        }
        Turn::Nothing
    }

    /// Replies to the connection whose message was given last, and says whether it could. One to
    /// which it couldn't is closed.
    pub fn reply(&mut self, bytes: &[u8]) -> bool
        requires { length bytes.now ≤ limits.MESSAGE_BYTES }
    {
        let Some(key) = self.last else {
            return false;
        };
        let most = self.bounds.waiting;
        let Some(peer) = self.peers.get_mut(key) else {
            return false;
        };
        if peer.reply(bytes, most) {
            return true;
        }
        self.last = None;
        self.drop_current(key);
        false
    }

    /// Once a second, closes the connections that were idle or slow for too long, and gives back
    /// memory of those that rest.
    pub fn walk(&mut self, now: u64) {
        if now.saturating_sub(self.walked) < BETWEEN && self.walked <= now {
            return;
        }
        self.walked = now;
        let open = self.peers.len();
        for key in 0..self.peers.capacity() {
            let late = match self.peers.get_mut(key) {
                Some(peer) => peer.rests_late(&self.bounds, open, now),
                None => false,
            };
            if late {
                self.close(key);
            }
        }
    }

    // The connection whose turn it is leaves the ring. The last takes its place and its turn.
    fn leave(&mut self) {
        if self.at < self.ready.len() {
            let _key = self.ready.swap_remove(self.at);
        }
    }

    // Closes the connection whose turn it is.
    fn drop_current(&mut self, key: usize) {
        self.leave();
        self.close(key);
    }

    fn close(&mut self, key: usize) {
        let _peer = self.peers.try_remove(key);
    }
}

// Whether two clients count as one: by address, and over IPv6 by the first 64 bits.
fn is_same_network(a: Addr, b: Addr) -> bool {
    match (a, b) {
        (Addr::V4(a), Addr::V4(b)) => a == b,
        (Addr::V6(a), Addr::V6(b)) => a >> 64 == b >> 64,
        _ => false,
    }
}
