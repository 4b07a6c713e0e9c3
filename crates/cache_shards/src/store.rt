//! One store of a shard.
ghost use Rattle.std.specs.Prelude.{◌≡◌, [], IfOk};
ghost use Rattle.std.specs.NonZero.{non_zero_usize_get};
ghost use Rattle.lru.specs.LruCache.{lru_cache};
ghost use Rattle.cache_shards.specs.Answers.{is_live};
ghost use Rattle.cache_shards.specs.Steps.{Looks, Puts};

use crate::calls::Kept;
use crate::slots::{find, place_of};
use dns_data::NoMemory;
use outside::{Entry, Key};
use seeded_hash::Seed;
use slot_lists::{Chains, Order};
use std::alloc::Global;
use std::marker::Model;
use std::num::NonZeroUsize;
use std::sync::Arc;

/// What a store has for a key: a live entry, which now is the last used, or none.
pub(crate) enum Found {
    Hit(Arc<Entry>),
    Nothing,
    NoMemory,
}

/// Whether an entry is live: its lifetime has begun and isn't over. Times are in milliseconds.
pub(crate) fn is_live(entry: &Entry, now: u64) -> bool
    ensures { result ≡ is_live entry.now now }
{
    entry.born <= now && now - entry.born < 1000 * u64::from(entry.life)
}

/// The entries of one class or two, the last used first.
#[derive(Drop)]
pub struct Store {
    // Slot 1 has the first pair.
    pairs: Vec<(Key, Arc<Entry>)>,
    order: Order,
    chains: Chains,
    room: u32,
    seed: Seed,
}

impl Model for Store {
    ghost use Rattle.lru.specs.LruCache.{lru_cache};
    ghost use Rattle.cache_shards.specs.Stores.{StoreData};
    ghost use Rattle.cache_shards.specs.Slots.{IsStore, shown};

    ghost Value = { StoreData };

    ghost view = { λ s. lru_cache (shown s.pairs.items s.order.slots) s.room };

    ghost invariant = { λ s. IsStore s.seed s.pairs.items s.order s.chains s.room };
}

impl Store {
    /// An empty store of so many keys.
    pub(crate) fn new(alloc: Global, room: NonZeroUsize, seed: Seed) -> Result<Store, NoMemory>
        ensures { IfOk result (λ store. store ≡ lru_cache [] (non_zero_usize_get room)) }
    {
        let most = room.get();
        if u32::MAX as usize <= most {
            return Err(NoMemory);
        }
        let room = most as u32;
        let pairs = Vec::with_capacity(alloc, most)?;
        let order = Order::new(alloc, room)?;
        let chains = Chains::new(alloc, room, room)?;
        Ok(Store {
            pairs,
            order,
            chains,
            room,
            seed,
        })
    }

    /// A live entry becomes the last used one. Another one is only looked at.
    pub(crate) fn look(&mut self, key: &Key, now: u64) -> Found
        ensures { Looks self.old key.now now result self.new }
    {
        if self.pairs.is_empty() {
            return Found::Nothing;
        }
        let at = place_of(&self.seed, self.room, key);
        let Some(hit) = find(self.pairs.as_slice(), &self.chains, key, at) else {
            return Found::Nothing;
        };
        let entry = &self.pairs[hit as usize - 1].1;
        if !is_live(entry, now) {
            return Found::Nothing;
        }
        let Ok(copy) = Arc::try_clone(entry) else {
            return Found::NoMemory;
        };
        self.order.to_front(hit);
        Found::Hit(copy)
    }

    /// The entry becomes the last used one. The one that was used least goes where the store is
    /// full.
    pub(crate) fn put(&mut self, key: Key, entry: Arc<Entry>) -> Kept
        ensures { Puts self.old key entry result self.new }
    {
        let at = place_of(&self.seed, self.room, &key);
        if let Some(slot) = find(self.pairs.as_slice(), &self.chains, &key, at) {
            self.pairs[slot as usize - 1].1 = entry;
            self.order.to_front(slot);
            return Kept::Kept;
        }
        let many = self.pairs.len();
        if many < self.room as usize {
            let Ok(_) = self.pairs.push((key, entry)) else {
                return Kept::NoMemory;
            };
            let slot = many as u32 + 1;
            self.chains.link(at, slot);
            self.order.add(slot);
            return Kept::Kept;
        }
        let slot = self.order.last();
        let was = place_of(&self.seed, self.room, &self.pairs[slot as usize - 1].0);
        self.chains.unlink(was, slot);
        self.pairs[slot as usize - 1] = (key, entry);
        self.chains.link(at, slot);
        self.order.to_front(slot);
        Kept::Kept
    }
}
