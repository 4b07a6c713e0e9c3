//! Pairs in slots, found by the hash of their key.
ghost use Rattle.std.specs.Prelude.{◌≡◌, ℕ, ◌<◌, List, length, slice_index, IfSome, IfNone};
ghost use Rattle.slot_lists.specs.Links.{walked};
ghost use Rattle.cache_shards.specs.Slots.{AreOthers, IsChainOf, IsPairOf, chain_of, place_of};

use outside::{Entry, Key};
use seeded_hash::Seed;
use slot_lists::Chains;
use std::hash::{BuildHasher, Hash, Hasher};
use std::sync::Arc;

/// The chain of a hash among so many.
#[inline]
#[tactic(auto, unfolding(crate::specs::Slots::chain_of))]
fn chain_of(hash: u64, room: u32) -> usize
    ensures { result ≡ chain_of hash room }
{
    (hash / 4_294_967_296 * u64::from(room) / 4_294_967_296) as usize
}

/// The chain of a key among so many.
#[inline]
#[tactic(auto, unfolding(crate::specs::Slots::place_of))]
pub(crate) fn place_of(seed: &Seed, room: u32, key: &Key) -> usize
    ensures { result ≡ place_of seed.now room key.now }
{
    let mut hasher = seed.build_hasher();
    key.hash(&mut hasher);
    chain_of(hasher.finish(), room)
}

/// The slot of a key, where one of its chain has it.
#[inline]
pub(crate) fn find(
    pairs: &[(Key, Arc<Entry>)],
    chains: &Chains,
    key: &Key,
    at: usize,
) -> Option<u32>
    requires at { at < length chains.now.heads.items }
    requires chain { (slots : List ℕ) × IsChainOf chains.now.heads.items chains.now.nexts.items
        (length pairs.now) at slots }
    ensures found { IfSome result (λ slot. IsPairOf pairs.now key.now slot) }
    ensures none { IfNone result (AreOthers pairs.now key.now
        (walked (length chains.now.nexts.items) chains.now.nexts.items
        (slice_index chains.now.heads.items at))) }
{
    let mut slot = chains.first(at);
    while slot != 0 {
        let pair = &pairs[slot as usize - 1];
        if *key == pair.0 {
            return Some(slot);
        }
        slot = chains.next(slot);
    }
    None
}
