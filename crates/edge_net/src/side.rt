ghost use Rattle.std.specs.Prelude.{◌≡◌, IfOk};
ghost use Rattle.edge_net.specs.Sides.{no_tally, side_state};

use crate::arrival::Arrival;
use crate::clock::moment;
use crate::crew::Crew;
use crate::pause::longer;
use crate::start::{Start, is_short};
use crate::tally::{Tally, count};
use crate::tcp::TcpEnd;
use crate::udp::UdpEnd;
use dns_data::limit::MESSAGE_BYTES;
use dns_data::{Buffer, Transport};
use edge_asks::{Asker, Words};
use edge_sockets::{Client, note_line};
use outside::{Datagram, Outcome, Received, Seen, Side, Upstream, Wrote};
use std::alloc::Global;
use std::net::Net;
use std::random::RandomSource;
use std::rt::Files;
use std::sync::{Arc, Wait};
use std::time::{Clock, Duration};
use std::{mem, thread};

/// Where the messages of a side come from.
#[derive(Drop)]
pub enum End {
    Udp(UdpEnd),
    Tcp(TcpEnd),
}

impl End {
    fn by(&self) -> Transport {
        match self {
            End::Udp(_) => Transport::Udp,
            End::Tcp(_) => Transport::Tcp,
        }
    }

    // Waits for a message, for a second. One over TCP comes in place of the spare.
    #[inline(always)]
    fn recv(
        &mut self,
        rt: &(impl Net + Clock + Files + Wait),
        spare: &mut Buffer,
        client: &mut Client,
    ) -> Arrival {
        match self {
            End::Udp(end) => end.recv(rt, client),
            End::Tcp(end) => end.recv(rt, spare, client),
        }
    }

    // The message that came, once.
    #[inline(always)]
    fn take(&mut self, alloc: Global, spare: &mut Buffer) -> Buffer {
        match self {
            End::Udp(end) => end.take(),
            End::Tcp(_) => mem::replace(spare, Buffer::new(alloc)),
        }
    }
}

/// A worker's side over sockets. It tells no journal and no script, and counts its failing calls.
#[derive(Drop)]
pub struct NetSide<R: Wait + Net + Clock + RandomSource + Eprint + Files + Drop> {
    rt: R,
    alloc: Global,
    end: End,
    // The port at which it receives.
    local: u16,
    // The bytes of an earlier message over TCP, for the memory of the next.
    spare: Buffer,
    // Who sent the last message.
    client: Client,
    // How long it waited behind the last receive, where that failed, in milliseconds.
    pause: u64,
    // The sides of the run, and whether all have begun.
    crew: Arc<Crew, Global>,
    start: Start,
    asker: Asker,
    words: Words,
    tally: Tally,
}

impl<R: Wait + Net + Clock + RandomSource + Eprint + Files + Drop> NetSide<R> {
    /// A side at a port, one of a crew.
    pub fn new(rt: R, alloc: Global, end: End, local: u16, crew: Arc<Crew, Global>) -> NetSide<R>
        ensures { result.tally ≡ no_tally }
    {
        crew.join();
        NetSide {
            rt,
            alloc,
            end,
            local,
            spare: Buffer::new(alloc),
            client: Client::nobody(),
            pause: 0,
            crew,
            start: Start::Waiting,
            asker: Asker::new(alloc),
            words: Words::new(),
            tally: Tally::new(),
        }
    }
}

impl<R: Wait + Net + Clock + RandomSource + Eprint + Files + Drop> Side for NetSide<R> {
    ghost state = { λ s. side_state s.tally };

    ghost quiet = { λ _. tt };

    ghost answered = { λ _. tt };

    /// Behind a failure it waits, up to 100 milliseconds behind many in a row. It ends once another
    /// side has left and no message is there. Where a side of the run has not begun in time there
    /// is no memory any more.
    fn recv(&mut self) -> Received {
        if self.start != Start::Whole && self.start.go_on(&self.rt, self.alloc, &self.crew) {
            return Received::NoMemory;
        }
        let (rt, spare, client) = (&self.rt, &mut self.spare, &mut self.client);
        match await_message(rt, self.alloc, &mut self.end, &self.crew, spare, client) {
            Arrival::Got => {
                let bytes = self.end.take(self.alloc, &mut self.spare);
                if bytes.len() == 0 && self.crew.is_ending() {
                    return Received::End;
                }
                self.pause = 0;
                Received::Got(Datagram {
                    bytes,
                    client: self.client.address,
                    port: self.client.port,
                    by: self.end.by(),
                    local: self.local,
                })
            }
            Arrival::Nothing => Received::End,
            Arrival::Failed => {
                count(&mut self.tally.recv);
                self.pause = longer(self.pause);
                thread::sleep(&self.rt, Duration::from_millis(self.pause));
                Received::Failed
            }
            Arrival::NoMemory => Received::NoMemory,
        }
    }

    fn send(&mut self, reply: &[u8]) -> Wrote {
        let sent = reply.len() <= MESSAGE_BYTES as usize
            && match &mut self.end {
                End::Udp(end) => end.reply(reply),
                End::Tcp(end) => end.reply(reply),
            };
        if sent {
            return Wrote::Ok;
        }
        count(&mut self.tally.send);
        Wrote::Failed
    }

    /// A clock that can't be read gives 0.
    fn now(&mut self) -> u64 {
        moment(&self.rt).unwrap_or(0)
    }

    /// A word of the system's random source, which is asked for 32 at once, or 0 where that fails.
    fn word(&mut self) -> u64 {
        self.words.next(&self.rt)
    }

    /// By a socket, or over TCP a connection, of this side's own, for two seconds at most. Over UDP
    /// its clients' datagrams are lent to the other workers of the port until the next receive.
    fn ask(&mut self, to: &Upstream, by: Transport, message: &[u8]) -> Outcome {
        if let End::Udp(end) = &mut self.end {
            end.lend(&self.rt);
        }
        let timings = self.crew.timings();
        let outcome = self.asker.ask(&self.rt, timings, to, by, message);
        self.tally.count_outcome(&outcome);
        outcome
    }

    /// A further datagram, for what is left of the time of the last ask.
    fn more(&mut self) -> Outcome {
        let outcome = self.asker.more(&self.rt);
        self.tally.count_outcome(&outcome);
        outcome
    }

    fn note(&mut self, line: &[u8]) -> Wrote {
        if note_line(&self.rt, line) {
            return Wrote::Ok;
        }
        count(&mut self.tally.note);
        Wrote::Failed
    }

    fn saw(&mut self, _what: Seen<'_>) {}

    fn take_back(&mut self, bytes: Buffer) {
        match &mut self.end {
            End::Udp(end) => end.take_back(bytes),
            End::Tcp(_) => self.spare = bytes,
        }
    }

    /// The other sides end soon, and the watch answers End once the last side has left.
    fn leave(&mut self) {
        count(&mut self.tally.left);
        let working = self.crew.leave(&self.rt);
        if let End::Udp(end) = &self.end {
            end.poke(&self.rt, working);
        }
    }
}

// Waits for the next message. Nothing: another side has left. Mostly a message comes within a
// second, and the loop is a call of its own.
#[inline(always)]
fn await_message<R: Net + Clock + Files + Wait + Eprint>(
    rt: &R,
    alloc: Global,
    end: &mut End,
    crew: &Crew,
    spare: &mut Buffer,
    client: &mut Client,
) -> Arrival {
    match end.recv(rt, spare, client) {
        Arrival::Nothing => await_longer(rt, alloc, end, crew, spare, client),
        arrival => arrival,
    }
}

// Waits for the next message where none has come within a second. No memory: a side of the run has
// not begun in time.
#[cold]
#[inline(never)]
fn await_longer<R: Net + Clock + Files + Wait + Eprint>(
    rt: &R,
    alloc: Global,
    end: &mut End,
    crew: &Crew,
    spare: &mut Buffer,
    client: &mut Client,
) -> Arrival {
    for _ in 0..u64::MAX {
        if crew.is_ending() {
            return Arrival::Nothing;
        }
        if is_short(rt, alloc, crew) {
            return Arrival::NoMemory;
        }
        match end.recv(rt, spare, client) {
            Arrival::Nothing => {}
            arrival => return arrival,
        }
    }
    Arrival::Failed
}
