//! The history of a cache's shard, as far as later calls depend on it.
ghost use Rattle.std.specs.Prelude.{◌≡◌, ◌↔◌, IsTrue, Some, IfOk, OnOk, [], ◌∷◌, ◌++◌, List};
ghost use Rattle.std.specs.Prelude.{option_map, true};
ghost use Rattle.std.specs.Map.{lookup};
ghost use Rattle.std.specs.NonZero.{non_zero_usize_get};
ghost use Rattle.outside.specs.declared.mark.Mark.{Mark};
ghost use Rattle.outside.specs.declared.mark.Mark.TheVariants.{Put};
ghost use Rattle.outside.specs.Same.{same_key};
ghost use Rattle.cache_shards.specs.Answers.{capacities_of, is_denial, is_live, live_at};
ghost use Rattle.audit_run.specs.ShardHistories.{StoresShow, TakesLook};

use dns_data::{Copies, NoMemory};
use lru::LruCache;
use outside::{Class, Entry, Key};
use std::alloc::Global;
use std::num::NonZeroUsize;

/// The keys that were used last, with their entries: in one store those of answers that succeeded,
/// in the other denials and failures.
#[derive(Drop)]
pub(crate) struct ShardHistory<'a> {
    success: LruCache<Key, &'a Entry>,
    denial: LruCache<Key, &'a Entry>,
}

impl<'a> ShardHistory<'a> {
    pub(crate) fn new(
        alloc: Global,
        success: NonZeroUsize,
        denial: NonZeroUsize,
    ) -> Result<ShardHistory<'a>, NoMemory>
        ensures { IfOk result (λ h. StoresShow (λ e. e.now)
            (capacities_of (non_zero_usize_get success) (non_zero_usize_get denial)) []
            h.success h.denial) }
    {
        // That neither is 0 is known once it is read.
        let _ = (success.get(), denial.get());
        Ok(ShardHistory {
            success: LruCache::sparse(alloc, success)?,
            denial: LruCache::sparse(alloc, denial)?,
        })
    }

    /// Takes a get of a key, where it was answered as it should.
    pub(crate) fn look(&mut self, key: &Key, now: u64, told: &Option<Entry>) -> bool
        ensures { (capacities : _) (marks : List Mark)
            → StoresShow (λ e. e.now) capacities marks self.old.success self.old.denial
            → TakesLook (λ e. e.now) capacities marks key.now now told.now result self.new.success
            self.new.denial }
    {
        if let Some(entry) = live_in(&self.denial, key, now) {
            if !is_told(told, entry) {
                return false;
            }
            self.denial.promote(key);
            return true;
        }
        let Some(entry) = live_in(&self.success, key, now) else {
            return told.is_none();
        };
        if !is_told(told, entry) {
            return false;
        }
        self.success.promote(key);
        true
    }

    /// Takes a put of an entry that was kept.
    pub(crate) fn put(&mut self, alloc: Global, key: &Key, entry: &'a Entry) -> Result<(), NoMemory>
        ensures { OnOk result ((capacities : _) (marks : List Mark)
            → StoresShow (λ e. e.now) capacities marks self.old.success self.old.denial
            → StoresShow (λ e. e.now) capacities (marks ++ Put key.now entry.now true ∷ [])
            self.new.success self.new.denial) }
    {
        let key = key.copy(alloc)?;
        if is_denial(entry) {
            self.denial.put(key, entry)?;
        } else {
            self.success.put(key, entry)?;
        }
        Ok(())
    }
}

// What a store has for a key, where it is live at this time, in milliseconds.
fn live_in<'a>(store: &LruCache<Key, &'a Entry>, key: &Key, now: u64) -> Option<&'a Entry>
    ensures { option_map (λ e. e.now) result
        ≡ live_at now (option_map (λ e. e.now) (lookup (same_key key.now) store.now.entries)) }
{
    let entry = *store.peek(key)?;
    if is_live(entry, now) {
        Some(entry)
    } else {
        None
    }
}

// Whether an entry stands in the store of denials and failures.
fn is_denial(entry: &Entry) -> bool
    ensures { result ≡ is_denial entry.now.class }
{
    match entry.class {
        Class::Success => false,
        Class::Denial | Class::Servfail => true,
    }
}

fn is_live(entry: &Entry, now: u64) -> bool
    ensures { result ≡ is_live entry.now now }
{
    entry.born <= now && now - entry.born < 1000 * u64::from(entry.life)
}

// Whether a get told this entry.
fn is_told(told: &Option<Entry>, entry: &Entry) -> bool
    ensures { IsTrue result ↔ (told.now ≡ Some entry.now) }
{
    match told {
        Some(told) => told.is_same(entry),
        None => false,
    }
}
