ghost use Rattle.std.specs.Prelude.{◌≡◌, false, slice_get, IfOk, OnErr};
ghost use Rattle.outside.specs.Script.{outcome_or_silence};
ghost use Rattle.outside_mem.specs.Feed.{script_of, is_want, IsUnusedFeed, GivesRecv, GivesAsk};

use crate::calls::Calls;
use crate::readings::Readings;
use dns_data::{Copies, NoMemory};
use outside::{Datagram, Outcome, Received, SideScript};
use std::alloc::Global;

/// The script of a side, and how far it is used up. It gives what the script says, call after call.
#[derive(Drop)]
pub(crate) struct SideFeed {
    pub gets: Vec<Datagram>,
    pub asks: Vec<Outcome>,
    pub nows: Readings,
    pub words: Readings,
    pub recv: Calls,
    pub send: Calls,
    pub ask: Calls,
    pub note: Calls,
}

impl SideFeed {
    pub fn new(script: SideScript) -> SideFeed
        ensures script { script_of result ≡ script }
        ensures unused { IsUnusedFeed result }
    {
        SideFeed {
            gets: script.gets,
            asks: script.asks,
            nows: Readings::new(script.nows),
            words: Readings::new(script.words),
            recv: Calls::new(script.fail_recv),
            send: Calls::new(script.fail_send),
            ask: Calls::new(script.fail_ask),
            note: Calls::new(script.fail_note),
        }
    }

    /// The next datagram, the end behind the last one, or a failure.
    pub fn recv(&mut self, alloc: Global) -> Received
        ensures { GivesRecv self.old self.new result }
    {
        if self.recv.is_to_fail() {
            self.recv.count();
            return Received::Failed;
        }
        let received = match self.gets.get(self.recv.used() as usize) {
            Some(datagram) => match datagram.copy(alloc) {
                Ok(datagram) => Received::Got(datagram),
                Err(NoMemory) => return Received::NoMemory,
            },
            None => Received::End,
        };
        self.recv.count();
        received
    }

    /// The next outcome of `ask` or `more`, silence behind the last one, or a failure.
    pub fn ask(&mut self, alloc: Global) -> Outcome
        ensures { GivesAsk self.old self.new result }
    {
        if self.ask.is_to_fail() {
            self.ask.count();
            return Outcome::Failed;
        }
        match outcome_at(alloc, &self.asks, self.ask.used() as usize) {
            Ok(outcome) => {
                self.ask.count();
                outcome
            }
            Err(NoMemory) => Outcome::NoMemory,
        }
    }
}

// The outcome at an index, or silence behind the last one. Only a datagram takes memory.
fn outcome_at(alloc: Global, asks: &[Outcome], index: usize) -> Result<Outcome, NoMemory>
    ensures given { IfOk result
        (λ outcome. outcome ≡ outcome_or_silence (slice_get asks.now index)) }
    ensures starved { OnErr result
        (is_want (outcome_or_silence (slice_get asks.now index)) ≡ false) }
{
    match asks.get(index) {
        Some(Outcome::Got(bytes)) => Ok(Outcome::Got(bytes.copy(alloc)?)),
        Some(Outcome::Failed) => Ok(Outcome::Failed),
        Some(Outcome::NoMemory) => Ok(Outcome::NoMemory),
        Some(Outcome::Silence) | None => Ok(Outcome::Silence),
    }
}
