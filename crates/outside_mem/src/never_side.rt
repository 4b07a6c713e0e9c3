ghost use Rattle.std.specs.Prelude.{◌≡◌, ◌≢◌, ℕ, [], IfOk, Some, option_map, slice_get};
ghost use Rattle.outside.specs.declared.datagram.Outcome.TheVariants as outcome;
ghost use Rattle.outside_mem.specs.Unused.{side_script};

use crate::side::MemSide;
use dns_data::{NoMemory, Transport};
use outside::{Mark, Outcome, Received, Seen, Side, SideScript, Upstream, Wrote};
use std::alloc::Global;

/// A side in memory of which no call fails: its counts of failing calls are the constant 0, and it
/// tells no script. It counts silences. What is promised of a run where nothing fails holds of one
/// over such sides without a condition.
#[derive(Drop)]
pub struct NeverSide {
    side: MemSide,
    ghost recv: { (side_script side).fail_recv ≡ [] },
    ghost send: { (side_script side).fail_send ≡ [] },
    ghost ask: { (side_script side).fail_ask ≡ [] },
    ghost note: { (side_script side).fail_note ≡ [] },
    ghost asks: { (call : ℕ) → slice_get (side_script side).asks call ≢ Some outcome.Failed },
}

impl NeverSide {
    ghost use Rattle.outside_mem.specs.Never.{NeverFails, IsUnusedNever, never_script};

    /// The script's lists of failing calls are empty, and no outcome of its asks is a failure.
    pub fn new(alloc: Global, script: SideScript) -> Result<NeverSide, NoMemory>
        requires never { NeverFails script }
        ensures script { IfOk result (λ s. never_script s ≡ script) }
        ensures unused { IfOk result IsUnusedNever }
    {
        let side = MemSide::new(alloc, script)?;
        Ok(NeverSide { side })
    }

    /// The marks told so far, or None where they are no longer told.
    pub fn journal(&self) -> Option<&[Mark]>
        ensures { option_map (λ marks. marks.now) result ≡ self.now.side.journal }
    {
        self.side.journal()
    }
}

impl Side for NeverSide {
    ghost use Rattle.outside_mem.specs.Never.{never_state};

    ghost state = { never_state };

    ghost quiet = { λ _. tt };

    ghost answered = { λ _. tt };

    fn recv(&mut self) -> Received {
        self.side.recv()
    }

    fn send(&mut self, reply: &[u8]) -> Wrote {
        self.side.send(reply)
    }

    fn now(&mut self) -> u64 {
        self.side.now()
    }

    fn word(&mut self) -> u64 {
        self.side.word()
    }

    fn ask(&mut self, to: &Upstream, by: Transport, message: &[u8]) -> Outcome {
        self.side.ask(to, by, message)
    }

    fn more(&mut self) -> Outcome {
        self.side.more()
    }

    fn note(&mut self, line: &[u8]) -> Wrote {
        self.side.note(line)
    }

    fn saw(&mut self, what: Seen<'_>) {
        self.side.saw(what);
    }

    fn leave(&mut self) {
        self.side.leave();
    }
}
