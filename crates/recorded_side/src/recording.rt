ghost use Rattle.std.specs.Prelude.{◌≡◌, [], Some, IfOk, OnSome};

use crate::keeping::{
    keep_ask, keep_more, keep_noted, keep_now, keep_recv, keep_seen, keep_sent, keep_word,
};
use dns_data::{Buffer, NoMemory, Seq, Transport};
use outside::{Mark, Outcome, Received, Seen, Side, Upstream, Wrote};
use std::alloc::Global;
use std::marker::Model;

pub type Marks = Seq<Mark>;

/// A side that hands each call on to the one that it owns, and keeps the marks, as long as there is
/// memory for each. Where that one has no script, the marks that are kept are what it tells: so
/// they are known of a side that tells nothing itself.
pub struct Recording<S: Side> {
    alloc: Global,
    side: S,
    kept: Option<Marks>,
}

impl<S: Side> Model for Recording<S> {
    ghost use Rattle.recorded_side.specs.Keeping.{KeepsTold};
    ghost use Rattle.recorded_side.specs.States.{Recorded};

    ghost Value = { Recorded S };

    ghost view = { λ r. record { side = r.side; kept = r.kept } };

    ghost invariant = { λ r. KeepsTold (S.state r.side).journal r.kept };
}

impl<S: Side> Recording<S> {
    ghost use Rattle.recorded_side.specs.Keeping.{KeepsTold};

    /// Over a side of which nothing was told yet.
    pub fn new(alloc: Global, side: S) -> Recording<S>
        requires fresh { OnSome (S.state side).journal ((S.state side).journal ≡ Some []) }
        ensures { result ≡ record { side = side; kept = Some [] } }
    {
        Recording {
            alloc,
            side,
            kept: Some(Seq::new(alloc)),
        }
    }

    /// The side, and the marks that were kept, where all of them could be.
    pub fn into_parts(self) -> (S, Result<Marks, NoMemory>)
        ensures side { result.0 ≡ self.side }
        ensures marks { IfOk result.1 (λ marks. self.kept ≡ Some marks) }
        ensures keeps { KeepsTold (S.state self.side).journal self.kept }
    {
        let Recording {
            alloc: _,
            side,
            kept,
        } = self;
        match kept {
            Some(marks) => (side, Ok(marks)),
            None => (side, Err(NoMemory)),
        }
    }
}

impl<S: Side> Side for Recording<S> {
    ghost use Rattle.recorded_side.specs.States.{recorded_state};
    ghost use Rattle.recorded_side.specs.StatesLaws.{follows};

    ghost state = { λ r. recorded_state (S.state r.side) r.kept };

    ghost quiet = { λ r. S.quiet r.side };

    ghost answered = { λ r. follows (S.state r.side) r.kept (S.answered r.side) };

    fn recv(&mut self) -> Received {
        let received = self.side.recv();
        keep_recv(self.alloc, &mut self.kept, &received);
        received
    }

    fn send(&mut self, reply: &[u8]) -> Wrote {
        let wrote = self.side.send(reply);
        keep_sent(self.alloc, &mut self.kept, reply, wrote);
        wrote
    }

    fn now(&mut self) -> u64 {
        let moment = self.side.now();
        keep_now(&mut self.kept, moment);
        moment
    }

    fn word(&mut self) -> u64 {
        let word = self.side.word();
        keep_word(&mut self.kept, word);
        word
    }

    fn ask(&mut self, to: &Upstream, by: Transport, message: &[u8]) -> Outcome {
        let outcome = self.side.ask(to, by, message);
        keep_ask(self.alloc, &mut self.kept, *to, by, message, &outcome);
        outcome
    }

    fn more(&mut self) -> Outcome {
        let outcome = self.side.more();
        keep_more(self.alloc, &mut self.kept, &outcome);
        outcome
    }

    fn note(&mut self, line: &[u8]) -> Wrote {
        let wrote = self.side.note(line);
        keep_noted(self.alloc, &mut self.kept, line, wrote);
        wrote
    }

    fn saw(&mut self, what: Seen<'_>) {
        self.side.saw(what);
        keep_seen(self.alloc, &mut self.kept, what);
    }

    fn take_back(&mut self, bytes: Buffer) {
        self.side.take_back(bytes);
    }

    fn leave(&mut self) {
        self.side.leave();
    }
}
