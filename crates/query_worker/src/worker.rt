ghost use Rattle.dns_data.specs.declared.limit.TheConstants as limits;
ghost use Rattle.std.specs.Prelude.{◌≡◌, ◌<◌};
ghost use Rattle.query_worker.specs.Tally.{DatagramEnds, IsIdle, RowEnds, with_datagram, with_miss};

use chain_build::{Chain, Room};
use dns_data::limit;
use pin_table::Pass;
use plugin_api::{Extra, Rulebook};
use run_meaning::WorkEnd;
use std::alloc::Global;

/// What a worker counts.
#[derive(Clone, Copy, Debug, PartialEq, Eq)]
pub struct Tally {
    /// How many datagrams it took, each under a pin of its own.
    pub pins: u64,
    /// The serial of its last pin, or 0.
    pub seen: u64,
    /// In how many turns it met want of memory.
    pub starved: u64,
    /// How many of the last calls of `recv` in a row failed or met want of memory.
    pub failures: u64,
    /// Whether one of these met want of memory.
    pub has_starved: bool,
}

impl Tally {
    // A datagram was taken under this serial. The last of `most` ends the worker.
    pub(crate) fn take(&mut self, serial: u64, most: u64) -> Option<WorkEnd>
        requires { self.old.pins < most }
        ensures tally { self.new ≡ with_datagram serial self.old }
        ensures end { DatagramEnds most self.new result }
    {
        self.pins += 1;
        self.seen = serial;
        self.failures = 0;
        self.has_starved = false;
        if self.pins == most {
            return Some(WorkEnd::End);
        }
        None
    }

    // A call of `recv` gave nothing. The 64th in a row ends the worker.
    pub(crate) fn miss(&mut self) -> Option<WorkEnd>
        requires { self.old.failures < limits.FAILURES }
        ensures tally { self.new ≡ with_miss self.old }
        ensures end { RowEnds self.new result }
    {
        self.failures += 1;
        if self.failures < limit::FAILURES {
            return None;
        }
        if self.has_starved {
            return Some(WorkEnd::NoMemory);
        }
        Some(WorkEnd::RecvFailed)
    }
}

/// A worker: its side, what it pins by, what it has counted so far, and the room for its replies.
#[derive(Drop)]
pub struct Worker<S, B: Rulebook, E: Extra> {
    pub side: S,
    pub pass: Pass<Chain<B, E>>,
    pub tally: Tally,
    pub room: Room,
}

impl<S, B: Rulebook, E: Extra> Worker<S, B, E> {
    /// A worker that has done nothing yet.
    pub fn new(alloc: Global, side: S, pass: Pass<Chain<B, E>>) -> Worker<S, B, E>
        ensures side { result.side ≡ side }
        ensures pass { result.pass ≡ pass }
        ensures idle { IsIdle result.tally }
    {
        Worker {
            side,
            pass,
            tally: Tally {
                pins: 0,
                seen: 0,
                starved: 0,
                failures: 0,
                has_starved: false,
            },
            room: Room::new(alloc),
        }
    }
}
