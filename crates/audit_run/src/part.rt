//! What workers share, and the calls that a side's journal tells of it.
ghost use Rattle.std.specs.Prelude.{◌≡◌};
ghost use Rattle.audit_run.specs.Parts.{is_of, is_order_of, run_of};
ghost use Rattle.one_history.specs.Runs.{block_at};

use crate::{Order, PoolRule};
use dns_data::Seq;
use std::num::NonZeroUsize;

/// A call of what workers share: the serial that its turn pinned, the block that its datagram
/// picked, the part of that block, and the number of the mark that tells it in its side's journal.
#[derive(Clone, Copy, Debug)]
pub struct SharedCall {
    pub serial: u64,
    pub block: u32,
    pub part: u32,
    pub mark: u32,
}

pub type SharedCalls = Seq<SharedCall>;

/// By which rule the history of a part is legal.
#[derive(Clone, Copy, Debug)]
pub enum PartRule {
    /// A shard whose stores keep so many keys: of what succeeded, and of denials and failures.
    Shard(NonZeroUsize, NonZeroUsize),
    Pool(PoolRule),
}

/// A part that workers share, of these blocks: one of each generation, from the one with serial
/// `first` on.
#[derive(Debug, Drop)]
pub struct SharedPart {
    pub first: u64,
    pub blocks: Seq<u32>,
    pub part: u32,
    pub rule: PartRule,
}

impl SharedPart {
    // The part's block of a generation.
    fn block_at(&self, serial: u64) -> Option<u32>
        ensures { result ≡ block_at (run_of self.now) serial }
    {
        if serial < self.first {
            return None;
        }
        self.blocks
            .as_slice()
            .get((serial - self.first) as usize)
            .copied()
    }

    /// Whether a call is one of this part.
    pub(crate) fn has(&self, call: &SharedCall) -> bool
        ensures { result ≡ is_of self.now call.now }
    {
        call.part == self.part && self.block_at(call.serial) == Some(call.block)
    }

    /// Whether an order is one of this part's calls.
    pub(crate) fn is_named_by(&self, order: &Order) -> bool
        ensures { result ≡ is_order_of self.now order.now }
    {
        order.part == self.part
            && order.serial == self.first
            && self.block_at(self.first) == Some(order.block)
    }
}
