//! A side that waits, over a side in memory.
ghost use Rattle.std.specs.Prelude.{None};

use crate::stage::Stage;
use dns_data::Transport;
use outside::{Outcome, Received, Seen, Side, Upstream, Wrote};
use outside_mem::MemSide;
use std::sync::Arc;

/// What a side waits for and tells, as numbers of its stage; 0 is nothing.
#[derive(Clone, Copy, Debug)]
pub struct Waits {
    /// What must be reached before the first receive.
    pub first: u64,
    /// What the second receive tells.
    pub again: u64,
    /// What a reply tells before it waits.
    pub holds: u64,
    /// What a reply waits for.
    pub until: u64,
    /// What is told behind a reply.
    pub sent: u64,
}

/// It tells nothing itself.
#[derive(Drop)]
pub struct StagedSide {
    pub side: MemSide,
    pub waits: Waits,
    pub received: u64,
    pub stage: Arc<Stage>,
    pub left: u64,
}

impl Side for StagedSide {
    ghost state = { λ s. record {
      journal = None;
      counts = (⟦<MemSide as Side>⟧.state s.side).counts;
      script = None;
      left = s.left;
    } };

    ghost quiet = { λ _. tt };

    ghost answered = { λ _. tt };

    fn recv(&mut self) -> Received {
        if self.received == 0 {
            self.stage.reach(self.waits.first);
        } else {
            self.stage.set(self.waits.again);
        }
        self.received = 1;
        self.side.recv()
    }

    fn send(&mut self, reply: &[u8]) -> Wrote {
        self.stage.set(self.waits.holds);
        self.stage.reach(self.waits.until);
        let wrote = self.side.send(reply);
        self.stage.set(self.waits.sent);
        wrote
    }

    fn now(&mut self) -> u64 {
        self.side.now()
    }

    fn word(&mut self) -> u64 {
        self.side.word()
    }

    fn ask(&mut self, to: &Upstream, by: Transport, message: &[u8]) -> Outcome {
        self.side.ask(to, by, message)
    }

    fn more(&mut self) -> Outcome {
        self.side.more()
    }

    fn note(&mut self, line: &[u8]) -> Wrote {
        self.side.note(line)
    }

    fn saw(&mut self, what: Seen<'_>) {
        self.side.saw(what);
    }

    fn leave(&mut self) {
        self.left = self.left.saturating_add(1);
    }
}
