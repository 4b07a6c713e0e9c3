//! Uses of one cache: of a new one, and a further one.
ghost use Rattle.std.specs.Prelude.{◌≡◌, ◌<◌, ◌-◌, ℕ, length, map, IfOk, OnOk, MatchResult};
ghost use Rattle.std.specs.Arc.{arc_value};
ghost use Rattle.cache_shards.specs.Planned.{planned_capacities};
ghost use Rattle.cache_shards.specs.Seats.{AreNew, HaveAll, MeetAll, WholeAt};
ghost use Rattle.ruled_lock.specs.Steps.{left_view, right_view};
ghost use Rattle.cache_plugin.specs.Uses.{HasMore, HasParts, IsUncalled, SameUse};

use crate::cache_use::CacheUse;
use cache_rules::CachePlan;
use cache_shards::{Cache, Judge};
use dns_data::NoMemory;
use seeded_hash::Seed;
use std::alloc::Global;
use std::sync::Arc;

impl<J: Judge + Drop> CacheUse<J> {
    /// The use of a new cache of a directive, with so many parts. The judge stands in proofs alone
    /// from then on. Hashes begin with the seed, which clients can't know.
    #[tactic(auto, using(crate::proofs::Shares::eight_views, crate::proofs::Shares::new_parts, crate::proofs::Shares::new_logs))]
    pub fn share(
        alloc: Global,
        plan: &CachePlan,
        judge: J,
        parts: u64,
        seed: Seed,
    ) -> Result<CacheUse<J>, NoMemory>
        requires { 0 < parts }
        ensures cache { IfOk result (λ u. (u.cache.judge ≡ judge)
            × (u.cache.capacities ≡ planned_capacities plan.now)) }
        ensures eight { IfOk result (λ u. length u.views ≡ 8) }
        ensures parts { IfOk result (HasParts parts) }
        ensures fresh { IfOk result IsUncalled }
        ensures new { IfOk result (λ u. AreNew parts u.views) }
    {
        let (cache, seat) = Cache::new(alloc, plan, judge, parts, seed)?;
        let cache = Arc::new(alloc, cache)?;
        Ok(CacheUse { cache, seat })
    }

    /// A further use of the same cache, with one of the parts.
    #[tactic(auto, using(crate::proofs::Shares::split_logs))]
    pub fn split(&mut self, alloc: Global) -> Result<CacheUse<J>, NoMemory>
        requires { HasMore self.old }
        ensures same { SameUse self.old self.new }
        ensures other { IfOk result (SameUse self.old) }
        ensures fresh { IfOk result IsUncalled }
        ensures parts { (parts : ℕ) → HasParts parts self.old
            → OnOk result (HasParts (parts - 1) self.new) }
        ensures left { MatchResult result (λ _. self.new.views ≡ map left_view self.old.views)
            (λ _. self.new ≡ self.old) }
        ensures right { IfOk result (λ u. u.views ≡ map right_view self.old.views) }
    {
        let cache = Arc::try_clone(&self.cache)?;
        let seat = self.cache.split(alloc, &mut self.seat)?;
        Ok(CacheUse { cache, seat })
    }

    /// Takes over another use of the same cache: its parts, and what it knows. It takes no memory.
    pub fn meet(&mut self, other: CacheUse<J>)
        requires { other.cache ≡ self.old.cache }
        ensures same { SameUse self.old self.new }
        ensures meets { MeetAll self.old.views other.views self.new.views }
    {
        let CacheUse { cache: _, seat } = other;
        self.cache.meet(&mut self.seat, seat);
    }

    /// With all parts it knows the whole history of each shard.
    pub fn whole(&mut self)
        requires { HaveAll self.old.views }
        ensures same { self.new ≡ self.old }
        ensures whole { (at : ℕ) → at < 8 → WholeAt at self.old.cache.capacities
            (J.just self.old.cache.judge) self.old.views }
    {
        self.cache.whole(&mut self.seat);
    }

    /// The cache itself.
    pub fn cache(&self) -> Result<Arc<Cache<J>>, NoMemory>
        ensures { IfOk result (λ cache. arc_value cache ≡ self.now.cache) }
    {
        Ok(Arc::try_clone(&self.cache)?)
    }

    /// It has a seat at each of eight shards.
    pub fn tell(&self)
        ensures { length self.now.views ≡ 8 }
    {
        let _ = &self.cache;
    }
}
