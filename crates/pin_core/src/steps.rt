//! The steps of the machine and their replies.

/// One event. Slots and workers are numbered from 0.
#[derive(Clone, Copy, Debug, PartialEq, Eq)]
pub enum PinStep {
    /// This worker's chain of the next generation is put into the slot.
    Fill { slot: u32, worker: u32 },
    /// The slot's generation becomes the current one, and the current one is replaced.
    Publish { slot: u32 },
    Pin { worker: u32 },
    Unpin { worker: u32 },
    /// Looks whether all pins of a replaced generation have ended.
    Sweep { slot: u32 },
    /// This worker's chain is taken out of the slot; the last one frees it.
    Drain { slot: u32, worker: u32 },
}

#[derive(Clone, Copy, Debug, PartialEq, Eq)]
pub enum PinReply {
    Done,
    Pinned { slot: u32, serial: u64 },
    /// So many of the pins that the slot had so far have ended.
    NotYet { ended: u64, total: u64 },
    Ready,
    /// The step may not be made now, and changed nothing.
    Unlawful,
}
