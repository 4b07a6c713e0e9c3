//! A slot, a worker's pins, and what one step makes of each.
ghost use Rattle.std.specs.Prelude.{◌≡◌, ◌+◌, ◌<◌, ◌≤◌, ◌^◌, length};
ghost use Rattle.pin_core.specs.Slots.{is_all, lacks, is_filled, is_current, is_drainable, due};
ghost use Rattle.pin_core.specs.Slots.{filled_slot, published_slot, replaced_slot, pinned_slot};
ghost use Rattle.pin_core.specs.Slots.{drained_slot};

/// How many generations there may be at once: the current one, those still pinned, and the next.
pub const SLOTS: usize = 4;

/// The most workers that there may be.
pub const WORKERS: usize = 32;

/// The serials that there may be; each is published once.
pub const MOST_SERIALS: u64 = 1 << 40;

/// The pins that one worker may make.
pub const MOST_PINS: u64 = 1 << 46;

/// What a slot is for at present. Marks are by worker, for 32 workers however many there are.
#[derive(Clone, Copy, Debug)]
pub enum Phase {
    Free,
    /// The workers whose chains are in.
    Filling([bool; WORKERS]),
    /// The pins since its publication.
    Current(u64),
    /// The pins that the slot had so far, whether a sweep saw them all ended, and the workers
    /// whose chains are out again.
    Replaced {
        total: u64,
        ready: bool,
        drained: [bool; WORKERS],
    },
}

/// `base` counts the pins that the slot had before its generation, `ended` all of its pins that
/// have ended. Both go on where the slot is used again.
#[derive(Clone, Copy, Debug)]
pub struct Slot {
    pub base: u64,
    pub ended: u64,
    pub phase: Phase,
}

/// `held` is the slot of the worker's open pin, `pins` the number of pins that it ever made.
#[derive(Clone, Copy, Debug, PartialEq, Eq)]
pub struct PinWorker {
    pub held: Option<u32>,
    pub pins: u64,
}

fn all_marked(marks: &[bool], workers: usize) -> bool
    requires { workers ≤ length marks.now }
    ensures { result ≡ is_all workers marks.now }
{
    marks[..workers].iter().all(|mark| *mark)
}

impl Phase {
    pub(crate) fn lacks(&self, worker: usize) -> bool
        requires { worker < WORKERS }
        ensures { result ≡ lacks worker self.now }
    {
        match self {
            Phase::Free => true,
            Phase::Filling(marks) => !marks[worker],
            _ => false,
        }
    }

    pub(crate) fn is_filled(&self, workers: usize) -> bool
        requires { workers ≤ WORKERS }
        ensures { result ≡ is_filled workers self.now }
    {
        match self {
            Phase::Filling(marks) => all_marked(marks, workers),
            _ => false,
        }
    }

    #[inline]
    pub(crate) fn is_current(&self) -> bool
        ensures { result ≡ is_current self.now }
    {
        matches!(self, Phase::Current(_))
    }

    pub(crate) fn is_drainable(&self, worker: usize) -> bool
        requires { worker < WORKERS }
        ensures { result ≡ is_drainable worker self.now }
    {
        match self {
            Phase::Replaced { ready, drained, .. } => *ready && !drained[worker],
            _ => false,
        }
    }
}

impl Slot {
    fn with_phase(self, phase: Phase) -> Slot
        ensures { result ≡ record { base = self.base; ended = self.ended; phase = phase } }
    {
        Slot {
            base: self.base,
            ended: self.ended,
            phase,
        }
    }

    pub(crate) fn filled(self, worker: usize) -> Slot
        requires { worker < WORKERS }
        ensures { result ≡ filled_slot worker self }
    {
        let mut marks = match self.phase {
            Phase::Free => [false; WORKERS],
            Phase::Filling(marks) => marks,
            _ => return self,
        };
        marks[worker] = true;
        self.with_phase(Phase::Filling(marks))
    }

    pub(crate) fn published(self) -> Slot
        ensures { result ≡ published_slot self }
    {
        self.with_phase(Phase::Current(0))
    }

    pub(crate) fn replaced(self) -> Slot
        requires { due self < 2 ^ 64 }
        ensures { result ≡ replaced_slot self }
    {
        let Phase::Current(pins) = self.phase else {
            return self;
        };
        self.with_phase(Phase::Replaced {
            total: self.base + pins,
            ready: false,
            drained: [false; WORKERS],
        })
    }

    // In place: a slot is 72 bytes, and each query pins.
    #[inline]
    pub(crate) fn add_pin(&mut self)
        requires { due self.old + 1 < 2 ^ 64 }
        ensures { self.new ≡ pinned_slot self.old }
    {
        if let Phase::Current(pins) = &mut self.phase {
            *pins += 1;
        }
    }

    pub(crate) fn drained(self, workers: usize, worker: usize) -> Slot
        requires { (worker < workers) × (workers ≤ WORKERS) }
        ensures { result ≡ drained_slot workers worker self }
    {
        let Phase::Replaced {
            total,
            ready,
            mut drained,
        } = self.phase
        else {
            return self;
        };
        drained[worker] = true;
        if all_marked(&drained, workers) {
            return Slot {
                base: self.ended,
                ended: self.ended,
                phase: Phase::Free,
            };
        }
        self.with_phase(Phase::Replaced {
            total,
            ready,
            drained,
        })
    }
}
