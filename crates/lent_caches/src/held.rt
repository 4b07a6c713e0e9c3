//! One cache that is held, and the list of them.
ghost use Rattle.std.specs.Prelude.{◌≡◌, ◌<◌, ◌+◌, map, IfOk, OnErr};
ghost use Rattle.lent_caches.specs.declared.uses.TheConstants.{PARTS};
ghost use Rattle.lent_caches.specs.Held.{AreApart, CanLend, IsHeldAs, IsNewUse, IsWhole};
ghost use Rattle.lent_caches.specs.Held.{given_back, held_data, lent_data, lent_one, lent_to};
ghost use Rattle.lent_caches.specs.Held.{use_of, with_log};
ghost use Rattle.lent_caches.specs.Ledger.{IsNamed};
ghost use Rattle.lent_caches.specs.Named.{IsHeldBy, named_data};

use crate::name::{CacheName, NamedCache};
use crate::uses::{HeldCache, LentCache};
use dns_lists::NoMemory;
use std::alloc::Global;

impl HeldCache {
    // A use for a chain.
    fn lend(&mut self, alloc: Global) -> Result<LentCache, NoMemory>
        requires { self.old.out + 1 < PARTS }
        ensures held { IfOk result (λ u. held_data self.new ≡ lent_to (held_data self.old)) }
        ensures lent { IfOk result (λ u. lent_data u ≡ use_of (held_data self.old)) }
        ensures fails { OnErr result (held_data self.new ≡ held_data self.old) }
    {
        let of = self.rest.split(alloc)?;
        self.out += 1;
        Ok(LentCache {
            name: self.name,
            of,
        })
    }

    // A chain's use is back.
    fn take(&mut self, lent: LentCache)
        requires { lent.of.cache ≡ self.old.rest.cache }
        ensures { held_data self.new ≡ with_log (lent_data lent) (held_data self.old) }
    {
        let LentCache { name: _, of } = lent;
        self.rest.meet(of);
        self.out -= 1;
    }

    // No use is out: the whole history of each shard is told, and the cache goes.
    pub(crate) fn settle(self)
        requires { self.out ≡ 0 }
        ensures { IsWhole (held_data self).cache (held_data self).logs }
    {
        let HeldCache {
            name: _,
            mut rest,
            out: _,
        } = self;
        rest.whole();
    }
}

// A chain's use is back at the cache of its name.
pub(crate) fn give_back(held: &mut [HeldCache], lent: LentCache)
    requires held { IsHeldAs (lent_data lent) (map held_data held.old) }
    requires apart { AreApart (map held_data held.old) }
    ensures { map held_data held.new ≡ given_back (lent_data lent) (map held_data held.old) }
{
    let Some((first, rest)) = held.split_first_mut() else {
        unreachable!()
    };
    if first.name.is_same(lent.name) {
        first.take(lent);
        return;
    }
    give_back(rest, lent);
}

// The cache of a name.
pub(crate) fn which_at(held: &[HeldCache], name: CacheName) -> Result<NamedCache, NoMemory>
    requires { IsNamed name (map held_data held.now) }
    ensures name { IfOk result (λ n. (named_data n).name ≡ name) }
    ensures held { IfOk result (λ n. IsHeldBy (named_data n) (map held_data held.now)) }
{
    let Some((first, rest)) = held.split_first() else {
        unreachable!()
    };
    if first.name.is_same(name) {
        return Ok(NamedCache {
            name,
            cache: first.rest.cache()?,
        });
    }
    which_at(rest, name)
}

// A chain's use of the cache of a name.
pub(crate) fn lend_at(
    held: &mut [HeldCache],
    alloc: Global,
    name: CacheName,
) -> Result<LentCache, NoMemory>
    requires can { CanLend name (map held_data held.old) }
    requires apart { AreApart (map held_data held.old) }
    ensures lent { IfOk result (λ u. map held_data held.new
        ≡ lent_one name (map held_data held.old)) }
    ensures new { IfOk result (λ u. IsNewUse name (map held_data held.old) (lent_data u)) }
    ensures fails { OnErr result (map held_data held.new ≡ map held_data held.old) }
{
    let Some((first, rest)) = held.split_first_mut() else {
        unreachable!()
    };
    if first.name.is_same(name) {
        return first.lend(alloc);
    }
    lend_at(rest, alloc, name)
}
