ghost use Rattle.std.specs.Prelude.{◌≤◌, length};
ghost use Rattle.dns_data.specs.declared.limit.TheConstants as limits;

use dns_data::Buffer;
use edge_sockets::Client;
use mio::net::TcpStream;
use std::alloc::Global;
use std::io::{ErrorKind, Read, Write};
use stream_connection::{Bounds, Connection, Next, Replied};

// How many reads one turn may take. A message of the largest size is whole behind five.
const READS: usize = 5;

// How many writes behind one another; the system mostly takes all in the first.
const WRITES: usize = 64;

// Replies to messages that came in one burst wait for each other up to so many bytes.
const BURST: usize = 16_384;

/// What a turn of a peer gave. More: it may have a message, in a further turn.
#[derive(Clone, Copy, Debug, PartialEq, Eq)]
pub(crate) enum Step {
    Message,
    More,
    Blocked,
    Closed,
    NoMemory,
}

// What a read gave.
#[derive(Clone, Copy, Debug, PartialEq, Eq)]
enum Reading {
    Some,
    Blocked,
    End,
    Failed,
}

/// A client at the other end of a connection.
#[derive(Drop)]
pub(crate) struct Peer {
    stream: TcpStream,
    pub client: Client,
    bytes: Connection,
    // Whether its key stands in the ring of the crowd.
    pub queued: bool,
    // Whether the system may have bytes of it.
    pub more: bool,
    // The system told that it sends no more behind what the system has.
    pub ending: bool,
    // It sends no more.
    ended: bool,
    // A write failed.
    broken: bool,
}

impl Peer {
    pub fn new(alloc: Global, stream: TcpStream, client: Client, now: u64) -> Peer {
        Peer {
            stream,
            client,
            bytes: Connection::new(alloc, now),
            queued: true,
            more: true,
            ending: false,
            ended: false,
            broken: false,
        }
    }

    /// The next whole message.
    #[inline(always)]
    pub fn step(&mut self, piece: &mut [u8], message: &mut Buffer, now: u64) -> Step {
        match self.bytes.next(message, now) {
            Next::Message => Step::Message,
            Next::NoMemory => Step::NoMemory,
            Next::Part => self.read_on(piece, message, now),
        }
    }

    // The next whole message, where none is here, as behind each burst. Before more is read, what
    // waits goes out, so that the replies to a burst leave together.
    #[cold]
    #[inline(never)]
    fn read_on(&mut self, piece: &mut [u8], message: &mut Buffer, now: u64) -> Step {
        for _ in 0..READS {
            self.flush();
            if self.is_over() {
                return Step::Closed;
            }
            if self.ended || !self.more {
                return Step::Blocked;
            }
            match self.read(piece, now) {
                Reading::Some => {}
                Reading::Blocked => return Step::Blocked,
                Reading::End => self.ended = true,
                Reading::Failed => return Step::Closed,
            }
            match self.bytes.next(message, now) {
                Next::Message => return Step::Message,
                Next::NoMemory => return Step::NoMemory,
                Next::Part => {}
            }
        }
        Step::More
    }

    // One read of what came. One that isn't full took all that the system had; what comes behind it
    // is told, but for the end, which may have been told with it.
    fn read(&mut self, piece: &mut [u8], now: u64) -> Reading {
        match self.stream.read(piece) {
            Ok(0) => Reading::End,
            Ok(count) => {
                self.more = self.ending || count == piece.len();
                match self.bytes.come(&piece[..count], now) {
                    Ok(()) => Reading::Some,
                    Err(_) => Reading::Failed,
                }
            }
            Err(fault) => match fault.kind() {
                ErrorKind::WouldBlock => {
                    self.more = false;
                    Reading::Blocked
                }
                ErrorKind::Interrupted => Reading::Some,
                _ => Reading::Failed,
            },
        }
    }

    /// Puts a reply behind those that wait, and says whether it may still go out. It is written at
    /// once where no further message of the same burst waits.
    pub fn reply(&mut self, bytes: &[u8], most: usize) -> bool
        requires { length bytes.now ≤ limits.MESSAGE_BYTES }
    {
        if self.bytes.reply(bytes, most) != Replied::Waits {
            self.broken = true;
            return false;
        }
        if self.bytes.waiting().len() >= BURST || !self.bytes.has_message() {
            self.flush();
        }
        !self.broken
    }

    /// Writes what waits, as far as the client takes it.
    pub fn flush(&mut self) {
        for _ in 0..WRITES {
            if self.broken || self.bytes.waiting().is_empty() {
                return;
            }
            match self.stream.write(self.bytes.waiting()) {
                Ok(0) => self.broken = true,
                Ok(count) => self.bytes.went(count),
                Err(fault) => match fault.kind() {
                    ErrorKind::WouldBlock => return,
                    ErrorKind::Interrupted => {}
                    _ => self.broken = true,
                },
            }
        }
    }

    /// Whether nothing can go to the client any more, or nothing has to and it sends no more.
    pub fn is_over(&self) -> bool {
        self.broken || self.ended && self.bytes.waiting().is_empty()
    }

    /// Whether it is to be closed, where so many are open, since it was idle or slow for too long.
    /// One that rests gives memory back.
    pub fn rests_late(&mut self, bounds: &Bounds, count: usize, now: u64) -> bool {
        if self.queued {
            return false;
        }
        self.bytes.rest();
        self.bytes.is_late(bounds, count, now)
    }
}
