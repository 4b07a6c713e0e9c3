//! A watch whose looks wait, over a watch in memory.
ghost use Rattle.std.specs.Prelude.{None};

use crate::stage::Stage;
use dns_data::Text;
use outside::{Look, Made, PatternMaker, ReadOut, Watch, Wrote};
use outside_mem::MemWatch;
use std::alloc::Global;
use std::sync::Arc;

/// What each look tells and then waits for, and what is told once a generation is published, by its
/// serial; 0 is nothing.
#[derive(Clone, Copy, Debug)]
pub struct LookSteps {
    pub tells: [u64; 5],
    pub waits: [u64; 5],
    pub behind: [u64; 5],
}

/// None waits.
pub const NO_STEPS: LookSteps = LookSteps {
    tells: [0; 5],
    waits: [0; 5],
    behind: [0; 5],
};

/// It tells nothing itself.
#[derive(Drop)]
pub struct StagedWatch {
    pub watch: MemWatch,
    pub looks: u64,
    pub steps: LookSteps,
    pub stage: Arc<Stage>,
}

impl PatternMaker for StagedWatch {
    ghost state = { λ w. record {
      journal = None;
      counts = (⟦<MemWatch as PatternMaker>⟧.state w.watch).counts;
      script = None;
      refusals = 0;
    } };

    ghost last = { λ _. None };

    fn make(&mut self, _alloc: Global, _text: &Text) -> Made {
        Made::NoMemory
    }
}

impl Watch for StagedWatch {
    ghost quiet = { λ _. tt };

    ghost answered = { λ _. tt };

    fn look(&mut self, interval: u64, jitter: u64) -> Look {
        self.stage.set(step(&self.steps.tells, self.looks));
        self.stage.reach(step(&self.steps.waits, self.looks));
        self.looks = self.looks.saturating_add(1);
        self.watch.look(interval, jitter)
    }

    fn read(&mut self, name: &Text) -> ReadOut {
        self.watch.read(name)
    }

    fn note(&mut self, line: &[u8]) -> Wrote {
        self.watch.note(line)
    }

    fn saw_published(&mut self, serial: u64) {
        self.watch.saw_published(serial);
        self.stage.set(step(&self.steps.behind, serial));
    }
}

// The step of this number.
fn step(steps: &[u64; 5], number: u64) -> u64 {
    match steps.get(number as usize) {
        Some(step) => *step,
        None => 0,
    }
}
