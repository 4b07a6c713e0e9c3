use crate::deadline::{Deadline, Waited, instant};
use crate::lines::Lines;
use crate::room::Room;
use crate::stream::{Talked, talk};
use crate::timings::Timings;
use dns_data::limit::MESSAGE_BYTES;
use dns_data::{Bytes, Transport};
use edge_sockets::{Awaited, Moved, is_connected, open_tcp_to, open_udp_to, send_some};
use outside::{Outcome, Upstream};
use std::alloc::Global;
use std::net::Net;
use std::os::fd::OwnedFd;
use std::sync::Wait;
use std::time::Clock;

/// What asks upstreams for one worker: over UDP by a socket for each ask, whose port the system
/// picks at random, and over TCP by connections that are kept. Each ask ends once its time is up.
#[derive(Drop)]
pub struct Asker {
    alloc: Global,
    room: Room,
    lines: Lines,
    // Of the last ask, where that was over UDP and got a datagram.
    socket: Option<OwnedFd>,
    until: Deadline,
}

impl Asker {
    pub fn new(alloc: Global) -> Asker {
        Asker {
            alloc,
            room: Room::new(alloc),
            lines: Lines::new(alloc),
            socket: None,
            until: Deadline::behind(0, 0),
        }
    }

    /// Sends a message to an upstream and waits for the first that comes from it, for as long as
    /// the round trips to it tell.
    #[inline(never)]
    pub fn ask<R: Net + Clock + Wait>(
        &mut self,
        rt: &R,
        timings: &Timings,
        to: &Upstream,
        by: Transport,
        message: &[u8],
    ) -> Outcome {
        self.socket = None;
        let Some(start) = instant(rt) else {
            return Outcome::Failed;
        };
        self.until = Deadline::behind(start, timings.begin(rt, to, by, start));
        let outcome = match by {
            Transport::Udp => self.ask_udp(rt, to, message),
            Transport::Tcp => self.ask_tcp(rt, to, message, start),
        };
        match &outcome {
            Outcome::Got(_) => {
                let took = instant(rt).unwrap_or(start).saturating_sub(start);
                let took = u32::try_from(took).unwrap_or(u32::MAX);
                timings.end(rt, to, by, Some(took));
            }
            Outcome::Silence => timings.end(rt, to, by, None),
            Outcome::Failed | Outcome::NoMemory => {}
        }
        outcome
    }

    /// Waits for a further datagram of the last ask, for what is left of its time. Failed where
    /// there is none to come: behind an ask over TCP, and behind one that gave none.
    #[inline(never)]
    pub fn more(&mut self, clock: &impl Clock) -> Outcome {
        match &self.socket {
            Some(socket) => self.room.receive(clock, socket, self.until),
            None => Outcome::Failed,
        }
    }

    fn ask_udp(&mut self, rt: &(impl Net + Clock), to: &Upstream, message: &[u8]) -> Outcome {
        let Ok(socket) = open_udp_to(rt, to.addr, to.port) else {
            return Outcome::Failed;
        };
        if send_some(&socket, message) != Moved::Some(message.len()) {
            return Outcome::Failed;
        }
        let outcome = self.room.receive(rt, &socket, self.until);
        if let Outcome::Got(_) = &outcome {
            self.socket = Some(socket);
        }
        outcome
    }

    // Over the connection that is kept, or over a new one where there is none, or where the kept
    // one turns out to be closed.
    fn ask_tcp(
        &mut self,
        rt: &(impl Net + Clock),
        to: &Upstream,
        message: &[u8],
        now: u64,
    ) -> Outcome {
        if message.len() > MESSAGE_BYTES as usize {
            return Outcome::Failed;
        }
        if let Some(socket) = self.lines.take(to, now) {
            match talk(rt, self.alloc, &socket, self.until, message) {
                Talked::Unbegun => {}
                talked => return self.told(talked, to, socket, message, now),
            }
        }
        match open_line(rt, to, self.until) {
            Ok(socket) => {
                let talked = talk(rt, self.alloc, &socket, self.until, message);
                self.told(talked, to, socket, message, now)
            }
            Err(outcome) => outcome,
        }
    }

    // What a connection gave. It is kept where it gave a reply to just this message, so that no
    // late reply meets the next one.
    fn told(
        &mut self,
        talked: Talked,
        to: &Upstream,
        socket: OwnedFd,
        message: &[u8],
        now: u64,
    ) -> Outcome {
        match talked {
            Talked::Got(bytes) => {
                if has_same_id(&bytes, message) {
                    self.lines.keep(to, socket, now);
                }
                Outcome::Got(bytes)
            }
            Talked::Silence => Outcome::Silence,
            Talked::Failed | Talked::Unbegun => Outcome::Failed,
            Talked::NoMemory => Outcome::NoMemory,
        }
    }
}

// Whether a reply has the id of a message.
fn has_same_id(reply: &Bytes, message: &[u8]) -> bool {
    match (
        reply.as_slice().first_chunk::<2>(),
        message.first_chunk::<2>(),
    ) {
        (Some(got), Some(asked)) => *got == *asked,
        _ => false,
    }
}

// A connection to an upstream, once it stands.
fn open_line(rt: &(impl Net + Clock), to: &Upstream, until: Deadline) -> Result<OwnedFd, Outcome> {
    let Ok(socket) = open_tcp_to(rt, to.addr, to.port) else {
        return Err(Outcome::Failed);
    };
    match until.wait(rt, &socket, Awaited::Room) {
        Waited::Ready if is_connected(&socket) => Ok(socket),
        Waited::Late => Err(Outcome::Silence),
        _ => Err(Outcome::Failed),
    }
}
