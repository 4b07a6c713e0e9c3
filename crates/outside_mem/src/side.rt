ghost use Rattle.std.specs.Prelude.{◌≡◌, [], ◌≢◌, ℕ, Some, IfOk, option_map, slice_get};
ghost use Rattle.outside.specs.declared.datagram.Outcome.TheVariants as outcome;
ghost use Rattle.outside_mem.specs.SideTold.{Tells, Tells-prop};

use crate::faults::{count, count_outcome, hand_out};
use crate::feed::SideFeed;
use crate::marks::{asked, got, more, noted, seen, sent};
use crate::telling::tell;
use dns_data::{NoMemory, Seq, Transport};
use outside::{InnerMark, Mark, Outcome, Received, Seen, Side, SideScript, Upstream, Wrote};
use std::alloc::Global;

/// A side in memory. It follows its script and tells what it did, until memory runs out for its
/// journal.
#[derive(Drop)]
pub struct MemSide {
    alloc: Global,
    feed: SideFeed,
    journal: Option<Seq<Mark>>,
    recv_faults: u64,
    send_faults: u64,
    ask_faults: u64,
    silences: u64,
    note_faults: u64,
    // How often it was told that its worker has ended.
    left: u64,
    ghost tells: { Tells feed journal } by { Tells-prop feed journal },
    ghost quiet_recv: { feed.recv.fails ≡ [] → recv_faults ≡ 0 },
    ghost quiet_send: { feed.send.fails ≡ [] → send_faults ≡ 0 },
    ghost quiet_note: { feed.note.fails ≡ [] → note_faults ≡ 0 },
    ghost quiet_ask: { feed.ask.fails ≡ []
        → ((call : ℕ) → slice_get feed.asks.items call ≢ Some outcome.Failed)
        → ask_faults ≡ 0 },
}

impl MemSide {
    ghost use Rattle.outside_mem.specs.Unused.{IsUnusedSide, side_script};

    pub fn new(alloc: Global, script: SideScript) -> Result<MemSide, NoMemory>
        ensures script { IfOk result (λ s. side_script s ≡ script) }
        ensures unused { IfOk result IsUnusedSide }
    {
        Ok(MemSide {
            alloc,
            feed: SideFeed::new(script),
            journal: Some(Seq::new(alloc)),
            recv_faults: 0,
            send_faults: 0,
            ask_faults: 0,
            silences: 0,
            note_faults: 0,
            left: 0,
        })
    }

    /// The marks told so far, or None where they are no longer told.
    pub fn journal(&self) -> Option<&[Mark]>
        ensures { option_map (λ marks. marks.now) result ≡ self.now.journal }
    {
        match &self.journal {
            Some(marks) => Some(marks.as_slice()),
            None => None,
        }
    }
}

impl Side for MemSide {
    ghost use Rattle.outside_mem.specs.SideTold.{answered};
    ghost use Rattle.outside_mem.specs.Unused.{side_state};

    ghost state = { side_state };

    ghost quiet = { λ s. record {
      recv = s.quiet_recv;
      send = s.quiet_send;
      note = s.quiet_note;
      ask = s.quiet_ask;
    } };

    ghost answered = { λ s. answered s.feed s.journal s.tells };

    fn recv(&mut self) -> Received {
        match self.feed.recv(self.alloc) {
            Received::Got(datagram) => {
                let mark = got(self.alloc, &datagram);
                tell(&mut self.journal, mark);
                Received::Got(datagram)
            }
            Received::End => {
                tell(&mut self.journal, Ok(Mark::RecvEnd));
                Received::End
            }
            Received::Failed => {
                count(&mut self.recv_faults);
                tell(&mut self.journal, Ok(Mark::RecvFailed));
                Received::Failed
            }
            Received::NoMemory => Received::NoMemory,
        }
    }

    fn send(&mut self, reply: &[u8]) -> Wrote {
        let wrote = hand_out(&mut self.feed.send, &mut self.send_faults);
        let mark = sent(self.alloc, reply, wrote);
        tell(&mut self.journal, mark);
        wrote
    }

    fn now(&mut self) -> u64 {
        let moment = self.feed.nows.next();
        tell(&mut self.journal, Ok(Mark::Now(moment)));
        moment
    }

    fn word(&mut self) -> u64 {
        let word = self.feed.words.next();
        tell(&mut self.journal, Ok(Mark::Inner(InnerMark::Word(word))));
        word
    }

    fn ask(&mut self, to: &Upstream, by: Transport, message: &[u8]) -> Outcome {
        let outcome = self.feed.ask(self.alloc);
        count_outcome(&mut self.ask_faults, &mut self.silences, &outcome);
        let mark = asked(self.alloc, *to, by, message, &outcome);
        tell(&mut self.journal, mark);
        outcome
    }

    fn more(&mut self) -> Outcome {
        let outcome = self.feed.ask(self.alloc);
        count_outcome(&mut self.ask_faults, &mut self.silences, &outcome);
        let mark = more(self.alloc, &outcome);
        tell(&mut self.journal, mark);
        outcome
    }

    fn note(&mut self, line: &[u8]) -> Wrote {
        let wrote = hand_out(&mut self.feed.note, &mut self.note_faults);
        let mark = noted(self.alloc, line, wrote);
        tell(&mut self.journal, mark);
        wrote
    }

    fn saw(&mut self, what: Seen<'_>) {
        let mark = seen(self.alloc, what);
        tell(&mut self.journal, mark);
    }

    fn leave(&mut self) {
        count(&mut self.left);
    }
}
