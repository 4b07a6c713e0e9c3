//! The caches of which a chain has a use, together.
ghost use Rattle.std.specs.Prelude.{◌≡◌, ◌++◌, [], ◌∷◌, IfOk, OnOk, OnErr, Some};
ghost use Rattle.lent_caches.specs.Held.{AreApart, AreWhole, CanLend, IsHeldAs, IsNewUse};
ghost use Rattle.lent_caches.specs.Held.{caches_data, given_back, lent_data, lent_one, stays};
ghost use Rattle.lent_caches.specs.Ledger.{IsNamed};
ghost use Rattle.lent_caches.specs.Made.{IsMade};
ghost use Rattle.lent_caches.specs.Named.{IsHeldBy, named_data};

use crate::held::{give_back, lend_at, which_at};
use crate::judge::BlockJudge;
use crate::name::{CacheName, NamedCache};
use crate::uses::{HeldCache, LentCache, PARTS};
use cache_plugin::CacheUse;
use cache_rules::CachePlan;
use dns_lists::NoMemory;
use seeded_hash::Seed;
use std::alloc::Global;

/// Each cache of which a chain still has a use, with the rest of its parts.
#[derive(Drop)]
pub struct Caches {
    pub(crate) held: Vec<HeldCache>,
}

impl Caches {
    /// None is held.
    pub fn new(alloc: Global) -> Caches
        ensures { caches_data result ≡ [] }
    {
        Caches {
            held: Vec::new(alloc),
        }
    }

    /// Holds a new cache of a directive, of which no use is out. Hashes begin with the seed.
    pub fn make(
        &mut self,
        alloc: Global,
        name: CacheName,
        plan: &CachePlan,
        judge: BlockJudge,
        seed: Seed,
    ) -> Result<(), NoMemory>
        ensures made { OnOk result (IsMade name plan.now judge (caches_data self.old)
            (caches_data self.new)) }
        ensures fails { OnErr result (caches_data self.new ≡ caches_data self.old) }
    {
        let rest = CacheUse::share(alloc, plan, judge, PARTS, seed)?;
        self.held.push(HeldCache { name, rest, out: 0 })?;
        Ok(())
    }

    /// The cache that is held under a name.
    pub fn which(&self, name: CacheName) -> Result<NamedCache, NoMemory>
        requires { IsNamed name (caches_data self.now) }
        ensures name { IfOk result (λ n. (named_data n).name ≡ name) }
        ensures held { IfOk result (λ n. IsHeldBy (named_data n) (caches_data self.now)) }
    {
        which_at(self.held.as_slice(), name)
    }

    /// A chain's use of the cache of a name.
    pub fn lend(&mut self, alloc: Global, name: CacheName) -> Result<LentCache, NoMemory>
        requires can { CanLend name (caches_data self.old) }
        requires apart { AreApart (caches_data self.old) }
        ensures lent { IfOk result (λ u. caches_data self.new
            ≡ lent_one name (caches_data self.old)) }
        ensures new { IfOk result (λ u. IsNewUse name (caches_data self.old) (lent_data u)) }
        ensures fails { OnErr result (caches_data self.new ≡ caches_data self.old) }
    {
        lend_at(self.held.as_mut_slice(), alloc, name)
    }

    /// A chain's use is back. It takes no memory.
    pub fn give(&mut self, lent: LentCache)
        requires held { IsHeldAs (lent_data lent) (caches_data self.old) }
        requires apart { AreApart (caches_data self.old) }
        ensures { caches_data self.new ≡ given_back (lent_data lent) (caches_data self.old) }
    {
        give_back(self.held.as_mut_slice(), lent);
    }

    /// Each cache of which no use is out tells its whole history, and goes.
    pub fn let_go(&mut self)
        ensures stays { caches_data self.new ≡ stays (caches_data self.old) }
        ensures whole { AreWhole (caches_data self.old) }
    {
        let mut at = 0;
        while at < self.held.len() {
            if self.held[at].out == 0 {
                self.held.remove(at).settle();
            } else {
                at += 1;
            }
        }
    }
}
