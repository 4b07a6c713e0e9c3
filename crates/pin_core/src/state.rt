//! The machine: its state, its reads and its steps.
ghost use Rattle.std.specs.Prelude.{◌≡◌, ◌+◌, ◌<◌, ◌≤◌, ◌^◌, ◌↔◌, IfOk, IfSome, IsNone, All, map};
ghost use Rattle.std.specs.Prelude.{position};
ghost use Rattle.pin_core.specs.Slots.{is_current, replaced_slot, due};
ghost use Rattle.pin_core.specs.Machine.{IsSound, start, current, after, fill, publish, pin, unpin};
ghost use Rattle.pin_core.specs.Machine.{sweep, drain};

use crate::slots::{MOST_PINS, MOST_SERIALS, Phase, PinWorker, SLOTS, Slot, WORKERS};
use crate::steps::{PinReply, PinStep};
use std::alloc::{AllocError, Global};
use std::marker::Model;

/// Memory ran out.
#[derive(Clone, Copy, Debug, PartialEq, Eq)]
pub struct NoMemory;

impl From<AllocError> for NoMemory {
    fn from(_: AllocError) -> NoMemory {
        NoMemory
    }
}

/// The pins of all workers on the generations of all slots.
#[derive(Drop)]
pub struct PinState {
    published: u64,
    slots: [Slot; SLOTS],
    workers: Vec<PinWorker>,
}

impl Model for PinState {
    ghost use Rattle.pin_core.specs.Machine.{Machine, IsSound};

    ghost Value = { Machine };

    ghost view = { λ s. record {
      published = s.published;
      slots = s.slots;
      workers = s.workers.items;
    } };

    ghost invariant = { λ s. IsSound (record {
      published = s.published;
      slots = s.slots;
      workers = s.workers.items;
    }) };
}

fn replace_all(slots: &mut [Slot; SLOTS])
    requires { All (λ x. due x < 2 ^ 64) slots.old }
    ensures { slots.new ≡ map replaced_slot slots.old }
{
    for slot in slots.iter_mut() {
        *slot = slot.replaced();
    }
}

#[inline]
fn current_of(slots: &[Slot]) -> Option<usize>
    ensures { result ≡ position (λ x. is_current x.phase) slots.now }
{
    slots.iter().position(|slot| slot.phase.is_current())
}

impl PinState {
    /// Four free slots, and nothing is published.
    pub fn new(alloc: Global, workers: u32) -> Result<PinState, NoMemory>
        requires { (0 < workers) × (workers ≤ WORKERS) }
        ensures { IfOk result (λ s. s ≡ start workers) }
    {
        let idle = PinWorker {
            held: None,
            pins: 0,
        };
        let workers = vec![in alloc; idle; workers as usize]?;
        let unused = Slot {
            base: 0,
            ended: 0,
            phase: Phase::Free,
        };
        Ok(PinState {
            published: 0,
            slots: [unused; SLOTS],
            workers,
        })
    }

    /// How many generations were published. The serial of the last is one less.
    pub fn published(&self) -> u64
        ensures count { result ≡ self.now.published }
        ensures sound { IsSound self.now }
    {
        self.published
    }

    /// The slot of the current generation; `None` before the first publication.
    #[inline]
    pub fn current_slot(&self) -> Option<u32>
        ensures none { IsNone result ↔ (self.now.published ≡ 0) }
        ensures slot { IfSome result (λ s. s ≡ current self.now) }
        ensures within { IfSome result (λ s. s < SLOTS) }
    {
        let slot = current_of(&self.slots)?;
        Some(slot as u32)
    }

    /// Makes one step where it is lawful. Takes no memory.
    // A caller that names its step gets just that arm.
    #[inline(always)]
    #[tactic(auto, using(crate::specs::Laws::unlawful_same))]
    pub fn step(&mut self, step: PinStep) -> PinReply
        ensures machine { self.new ≡ (after self.old step).0 }
        ensures reply { result ≡ (after self.old step).1 }
        ensures unlawful { result ≡ PinReply.Unlawful → self.new ≡ self.old }
    {
        match step {
            PinStep::Fill { slot, worker } => self.fill(slot, worker),
            PinStep::Publish { slot } => self.publish(slot),
            PinStep::Pin { worker } => self.pin(worker),
            PinStep::Unpin { worker } => self.unpin(worker),
            PinStep::Sweep { slot } => self.sweep(slot),
            PinStep::Drain { slot, worker } => self.drain(slot, worker),
        }
    }

    #[inline(never)]
    fn fill(&mut self, slot: u32, worker: u32) -> PinReply
        ensures machine { self.new ≡ (fill self.old slot worker).0 }
        ensures reply { result ≡ (fill self.old slot worker).1 }
    {
        let (slot, worker) = (slot as usize, worker as usize);
        if slot >= SLOTS || worker >= self.workers.len() {
            return PinReply::Unlawful;
        }
        if !self.slots[slot].phase.lacks(worker) {
            return PinReply::Unlawful;
        }
        self.slots[slot] = self.slots[slot].filled(worker);
        PinReply::Done
    }

    #[inline(never)]
    fn publish(&mut self, slot: u32) -> PinReply
        ensures machine { self.new ≡ (publish self.old slot).0 }
        ensures reply { result ≡ (publish self.old slot).1 }
    {
        let slot = slot as usize;
        if slot >= SLOTS || self.published >= MOST_SERIALS {
            return PinReply::Unlawful;
        }
        let filled = self.slots[slot];
        if !filled.phase.is_filled(self.workers.len()) {
            return PinReply::Unlawful;
        }
        replace_all(&mut self.slots);
        self.slots[slot] = filled.published();
        self.published += 1;
        PinReply::Done
    }

    #[inline]
    fn pin(&mut self, worker: u32) -> PinReply
        ensures machine { self.new ≡ (pin self.old worker).0 }
        ensures reply { result ≡ (pin self.old worker).1 }
    {
        let Some(slot) = self.current_slot() else {
            return PinReply::Unlawful;
        };
        let (at, worker) = (slot as usize, worker as usize);
        if worker >= self.workers.len() {
            return PinReply::Unlawful;
        }
        let had = self.workers[worker];
        if had.held.is_some() || had.pins >= MOST_PINS {
            return PinReply::Unlawful;
        }
        self.slots[at].add_pin();
        self.workers[worker] = PinWorker {
            held: Some(slot),
            pins: had.pins + 1,
        };
        PinReply::Pinned {
            slot,
            serial: self.published - 1,
        }
    }

    #[inline]
    fn unpin(&mut self, worker: u32) -> PinReply
        ensures machine { self.new ≡ (unpin self.old worker).0 }
        ensures reply { result ≡ (unpin self.old worker).1 }
    {
        let worker = worker as usize;
        if worker >= self.workers.len() {
            return PinReply::Unlawful;
        }
        let Some(slot) = self.workers[worker].held else {
            return PinReply::Unlawful;
        };
        self.slots[slot as usize].ended += 1;
        self.workers[worker].held = None;
        PinReply::Done
    }

    #[inline(never)]
    fn sweep(&mut self, slot: u32) -> PinReply
        ensures machine { self.new ≡ (sweep self.old slot).0 }
        ensures reply { result ≡ (sweep self.old slot).1 }
    {
        let slot = slot as usize;
        if slot >= SLOTS {
            return PinReply::Unlawful;
        }
        let ended = self.slots[slot].ended;
        let Phase::Replaced { total, drained, .. } = self.slots[slot].phase else {
            return PinReply::Unlawful;
        };
        if ended < total {
            return PinReply::NotYet { ended, total };
        }
        self.slots[slot].phase = Phase::Replaced {
            total,
            ready: true,
            drained,
        };
        PinReply::Ready
    }

    #[inline(never)]
    fn drain(&mut self, slot: u32, worker: u32) -> PinReply
        ensures machine { self.new ≡ (drain self.old slot worker).0 }
        ensures reply { result ≡ (drain self.old slot worker).1 }
    {
        let (slot, worker) = (slot as usize, worker as usize);
        let workers = self.workers.len();
        if slot >= SLOTS || worker >= workers {
            return PinReply::Unlawful;
        }
        if !self.slots[slot].phase.is_drainable(worker) {
            return PinReply::Unlawful;
        }
        self.slots[slot] = self.slots[slot].drained(workers, worker);
        PinReply::Done
    }
}
