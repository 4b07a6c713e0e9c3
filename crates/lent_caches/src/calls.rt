//! The calls of a use that is lent: one look, and behind a miss at most one put.
ghost use Rattle.std.specs.Prelude.{◌≡◌, List, IfOk};
ghost use Rattle.cache_plugin.specs.{ArePast, CallsBy, IsFair, MissesBy, kept_result, look_result};
ghost use Rattle.cache_plugin.specs.{state_at, use_logs};
ghost use Rattle.cache_rules.specs.{key_of};
ghost use Rattle.chain_meaning.specs.Caching.{entry_for, put_or, take_look};
ghost use Rattle.lent_caches.specs.Judging.{is_just};
ghost use Rattle.lent_caches.specs.Lent.{IsSameUse};
ghost use Rattle.outside.specs.declared.entry.InnerMark.{InnerMark};

use crate::uses::LentCache;
use cache_plugin::{CacheQuery, Decided, Found, Missed};
use dns_lists::NoMemory;
use outside::{Entry, Side};
use std::sync::{Arc, Wait};

impl LentCache {
    /// Reads the clock and looks for the answer to a query.
    #[inline]
    pub fn find<R: Wait, S: Side>(
        &mut self,
        asked: &CacheQuery<'_, R>,
        side: &mut S,
    ) -> Result<Found, NoMemory>
        ensures same { IsSameUse self.old self.new }
        ensures key { IfOk result (MissesBy (key_of asked.now.query.now)) }
        ensures calls { CallsBy (key_of asked.now.query.now)
            (take_look (key_of asked.now.query.now)) (look_result result)
            (state_at (S.state side.old) (use_logs self.old.of))
            (state_at (S.state side.new) (use_logs self.new.of)) }
    {
        self.of.find(asked, side)
    }

    /// Puts the answer to a query into the cache, where its rules keep it, and then gives the
    /// entry. A cache that has no memory for it loses it alone.
    #[inline]
    pub fn keep<R: Wait, S: Side>(
        &mut self,
        asked: &CacheQuery<'_, R>,
        missed: Missed,
        decided: Decided,
        side: &mut S,
    ) -> Result<Option<Arc<Entry>>, NoMemory>
        requires key { missed.key ≡ key_of asked.now.query.now }
        requires fair { IsFair (is_just self.old.of.cache.judge) asked.now.plan.now
            asked.now.query.now missed.moment decided.answer decided.kept }
        ensures same { IsSameUse self.old self.new }
        ensures calls { (inner : List InnerMark) → ArePast decided.kept inner
            → CallsBy (key_of asked.now.query.now)
            (put_or asked.now.plan.now missed.moment decided.answer
            (entry_for asked.now.plan.now asked.now.query.now missed.moment decided.answer inner))
            (kept_result asked.now.plan.now missed.moment decided.answer result)
            (state_at (S.state side.old) (use_logs self.old.of))
            (state_at (S.state side.new) (use_logs self.new.of)) }
    {
        self.of.keep(asked, missed, decided, side)
    }
}
