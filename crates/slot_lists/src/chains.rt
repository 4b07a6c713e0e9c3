//! Chains of slots.
ghost use Rattle.std.specs.Prelude.{◌≡◌, ℕ, ◌+◌, ◌<◌, ◌≤◌, List, length, replicate, IfOk};
ghost use Rattle.std.specs.Prelude.{slice_index, slice_set};
ghost use Rattle.slot_lists.specs.Chained.{IsChainWith, IsCut, IsInFront};

use std::alloc::{AllocError, Global};

/// Chains, each of which begins at a place. A slot leads to the next one, and the last to 0.
#[derive(Drop)]
pub struct Chains {
    heads: Vec<u32>,
    nexts: Vec<u32>,
}

impl Chains {
    /// So many chains without slots, for so many slots at most, from 1 on.
    pub fn new(alloc: Global, places: u32, most: u32) -> Result<Chains, AllocError>
        ensures heads { IfOk result (λ chains. chains.heads.items ≡ replicate places 0) }
        ensures nexts { IfOk result (λ chains. length chains.nexts.items ≡ most + 1) }
    {
        let heads = vec![in alloc; 0_u32; places as usize]?;
        let nexts = vec![in alloc; 0_u32; most as usize + 1]?;
        Ok(Chains { heads, nexts })
    }

    /// How many chains.
    #[inline]
    pub fn len(&self) -> usize
        ensures { result ≡ length self.now.heads.items }
    {
        self.heads.len()
    }

    /// The first slot of a chain, or 0.
    #[inline]
    pub fn first(&self, at: usize) -> u32
        requires { at < length self.now.heads.items }
        ensures { result ≡ slice_index self.now.heads.items at }
    {
        self.heads[at]
    }

    /// The slot behind this one, or 0.
    #[inline]
    pub fn next(&self, slot: u32) -> u32
        requires { slot < length self.now.nexts.items }
        ensures { result ≡ slice_index self.now.nexts.items slot }
    {
        self.nexts[slot as usize]
    }

    /// A slot becomes the first of a chain.
    #[inline]
    pub fn link(&mut self, at: usize, slot: u32)
        requires at { at < length self.old.heads.items }
        requires slot { slot < length self.old.nexts.items }
        ensures heads { self.new.heads.items ≡ slice_set self.old.heads.items at slot }
        ensures nexts { self.new.nexts.items ≡ slice_set self.old.nexts.items slot
            (slice_index self.old.heads.items at) }
    {
        self.nexts[slot as usize] = self.heads[at];
        self.heads[at] = slot;
    }

    /// A slot goes out of its chain.
    #[inline]
    #[tactic(auto, using(crate::proofs::Chained::walks))]
    pub fn unlink(&mut self, at: usize, slot: u32)
        requires at { at < length self.old.heads.items }
        requires chain { (slots : List ℕ)
            × IsChainWith self.old.heads.items self.old.nexts.items at slot slots }
        ensures { IsCut self.old.heads.items self.old.nexts.items at slot
            self.new.heads.items self.new.nexts.items }
    {
        let behind = self.next(slot);
        let head = self.first(at);
        if head == slot {
            self.heads[at] = behind;
            return;
        }
        let front = self.in_front(at, slot, head);
        self.nexts[front as usize] = behind;
    }

    // The slot in front of another one in its chain, where that isn't the first.
    #[inline]
    fn in_front(&self, at: usize, slot: u32, head: u32) -> u32
        requires head { head ≡ slice_index self.now.heads.items at }
        requires other { head ≡ slot → ⊥ }
        requires chain { (slots : List ℕ)
            × IsChainWith self.now.heads.items self.now.nexts.items at slot slots }
        ensures next { slice_index self.now.nexts.items result ≡ slot }
        ensures is { IsInFront self.now.heads.items self.now.nexts.items at slot result }
    {
        let mut front = head;
        loop {
            let next = self.next(front);
            if next == slot {
                return front;
            }
            front = next;
        }
    }
}
