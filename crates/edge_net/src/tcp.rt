ghost use Rattle.std.specs.Prelude.{◌≤◌, length};
ghost use Rattle.dns_data.specs.declared.limit.TheConstants as limits;

use crate::arrival::Arrival;
use crate::clock::moment;
use crate::crowd::{Crowd, Turn};
use crate::descriptors::first_kept_now;
use dns_data::Buffer;
use edge_sockets::{Client, PATIENCE, Sender, peer_of};
use mio::net::TcpListener;
use mio::{Events, Interest, Poll, Token};
use std::alloc::Global;
use std::net::Net;
use std::time::{Clock, Duration};
use std::{io, net};
use stream_connection::Bounds;

const LISTENER: Token = Token(usize::MAX);

// How many bytes a read takes at most.
const PIECE: usize = 16_384;

// How many events the system tells at once, and how many connections are taken in behind one wait.
const EVENTS: usize = 256;

// How many turns there may be before the system is asked again.
const TURNS: usize = 64;

/// One worker's connections over TCP, and its share of the listeners.
#[derive(Drop)]
pub struct TcpEnd {
    poll: Poll,
    events: Events,
    listeners: Vec<TcpListener>,
    crowd: Crowd,
    piece: Vec<u8>,
    from: Sender,
    // Whether the listener may have more.
    more: bool,
    // Whether the last accept failed, as where descriptors have run out.
    failed: bool,
    // How many turns there may still be before the system is asked again.
    turns: usize,
    // When the system was asked last, in milliseconds.
    now: u64,
}

impl TcpEnd {
    /// A side of a listener, which other sides may have as well.
    pub fn new(
        net: &impl Net,
        alloc: Global,
        listener: &net::TcpListener,
        bounds: Bounds,
    ) -> io::Result<TcpEnd> {
        let mut end = TcpEnd {
            poll: Poll::new(net)?,
            events: Events::with_capacity(alloc, EVENTS)?,
            listeners: Vec::new(alloc),
            crowd: Crowd::new(alloc, bounds, first_kept_now()),
            piece: Vec::from_elem(alloc, 0u8, PIECE)?,
            from: Sender::nobody(),
            more: true,
            failed: false,
            turns: 0,
            now: 0,
        };
        end.listen(listener)?;
        Ok(end)
    }

    /// Takes the connections of one more listener.
    pub fn listen(&mut self, listener: &net::TcpListener) -> io::Result<()> {
        let listener = listener.try_clone()?;
        listener.set_nonblocking(true)?;
        let mut listener = TcpListener::from_std(listener);
        let registry = self.poll.registry();
        registry.register(&mut listener, LISTENER, Interest::READABLE)?;
        self.listeners.push(listener)?;
        Ok(())
    }

    /// Waits for the next whole message of any connection, each in its turn. `client` becomes who
    /// sent it.
    #[inline(never)]
    pub fn recv(
        &mut self,
        clock: &impl Clock,
        message: &mut Buffer,
        client: &mut Client,
    ) -> Arrival {
        for _ in 0..u64::MAX {
            if self.turns == 0 || self.crowd.ready() == 0 {
                match self.wait(clock) {
                    Ok(true) => {}
                    Ok(false) => return Arrival::Nothing,
                    Err(_) => return Arrival::Failed,
                }
            }
            self.turns = self.turns.saturating_sub(1);
            let piece = self.piece.as_mut_slice();
            match self.crowd.turn(piece, message, client, self.now) {
                Turn::Got => return Arrival::Got,
                Turn::NoMemory => return Arrival::NoMemory,
                Turn::Nothing => {}
            }
        }
        Arrival::Failed
    }

    /// Replies to the connection whose message was given last, and says whether it could.
    pub fn reply(&mut self, bytes: &[u8]) -> bool
        requires { length bytes.now ≤ limits.MESSAGE_BYTES }
    {
        self.crowd.reply(bytes)
    }

    // Asks the system what came, and waits for it where no connection may have a message. False
    // where it waited as long as it may and nothing came. Mostly a message is here, and this is a
    // call of its own.
    #[cold]
    #[inline(never)]
    fn wait(&mut self, clock: &impl Clock) -> io::Result<bool> {
        let time = self.patience();
        self.poll.poll(&mut self.events, Some(time))?;
        let mut came = time < Duration::from_millis(u64::from(PATIENCE));
        for event in &self.events {
            came = true;
            if event.token() == LISTENER {
                self.more = true;
            } else {
                self.crowd.wake(event);
            }
        }
        self.now = moment(clock).unwrap_or(0);
        self.crowd.walk(self.now);
        if self.more || self.failed {
            self.accept(self.now);
        }
        self.turns = self.crowd.ready().max(TURNS);
        Ok(came)
    }

    // For how long to wait: no time where a connection may have a message, and a second at most.
    fn patience(&self) -> Duration {
        if self.more || self.crowd.ready() != 0 {
            return Duration::from_millis(0);
        }
        if self.failed {
            return Duration::from_millis(100);
        }
        Duration::from_millis(u64::from(PATIENCE))
    }

    // Takes the connections in that wait. Where that fails it is tried again a little later.
    fn accept(&mut self, now: u64) {
        self.failed = false;
        self.more = false;
        for at in 0..self.listeners.len() {
            self.accept_at(at, now);
        }
    }

    fn accept_at(&mut self, at: usize, now: u64) {
        let Some(listener) = self.listeners.get(at) else {
            return;
        };
        for _ in 0..EVENTS {
            match listener.accept() {
                Ok((stream, _)) => {
                    if let Some(client) = peer_of(&stream, &mut self.from) {
                        self.crowd.add(self.poll.registry(), stream, client, now);
                    }
                }
                Err(fault) => {
                    self.failed |= fault.kind() != io::ErrorKind::WouldBlock;
                    return;
                }
            }
        }
        self.more = true;
    }
}
