//! The cache of a chain, and the way on where it has none.
ghost use Rattle.std.specs.Prelude.{◌≡◌, List, Some, None, IfOk, IsTrue};
ghost use Rattle.dns_data.specs.Message.{no_answer};
ghost use Rattle.cache_plugin.specs.{ArePast, CallsBy, state_at, use_logs};
ghost use Rattle.cache_rules.specs.{aged, cache_zones, key_of};
ghost use Rattle.lent_caches.specs.Lent.{IsSameUse};
ghost use Rattle.outside.specs.declared.entry.InnerMark.{InnerMark};
ghost use Rattle.zone_words.specs.{is_in};
ghost use Rattle.chain_meaning.specs.Caching.{cached, found, kept_with};
ghost use Rattle.chain_meaning.specs.CallsByRun.{numbers_in};
ghost use Rattle.chain_meaning.specs.Mean.{mean};
ghost use Rattle.chain_meaning.specs.declared.decision.Decision.TheVariants as decision;
ghost use Rattle.chain_build.specs.Caches.{IsFairFor};
ghost use Rattle.chain_build.specs.Giving.{gave};
ghost use Rattle.chain_build.specs.LoggedWalks.{TakesBy, taking};
ghost use Rattle.chain_build.specs.Plans.{behind_of, inner_of};
ghost use Rattle.chain_build.specs.Uses.{IsUsed, SameUses};
ghost use Rattle.chain_build.specs.Walking.{decided, decision_of};

use crate::back::run_behind;
use crate::block::BlockChain;
use crate::block_uses::BlockUses;
use crate::ended::Ended;
use crate::given::{Given, as_given, hit_of};
use crate::room::{PluginRoom, WalkRoom};
use crate::walk::Walk;
use cache_plugin::{CacheQuery, Decided, Found, Missed};
use cache_rules::{CachePlan, aged};
use dns_data::{NoMemory, Slot};
use lent_caches::LentCache;
use outside::{Entry, Kept, Light, Side};
use std::alloc::Global;
use std::mem;
use std::sync::Wait;

/// Runs what stands behind the front of a chain and its extras: its cache, where it has one for the
/// name, and what stands behind that. The slot is clear.
#[inline(always)]
pub fn run_inner<'a, R: Wait, S: Side>(
    walk: &Walk<'_, R>,
    chain: &'a BlockChain,
    uses: &mut BlockUses,
    side: &mut S,
    room: &mut WalkRoom,
) -> Result<Given<'a>, NoMemory>
    requires clear { room.old.plugins.slot ≡ no_answer }
    requires used { IsUsed chain.now uses.old }
    ensures same { SameUses uses.old uses.new }
    ensures takes { TakesBy (numbers_in (inner_of chain.now) walk.now.query.now)
        (mean (inner_of chain.now) walk.now.query.now)
        (gave result room.new.plugins.slot) (taking (S.state side.old) uses.old)
        (taking (S.state side.new) uses.new) }
{
    if let Some(plan) = &chain.cache {
        if plan.covers(&walk.query.name) {
            let asked = CacheQuery {
                rt: walk.rt,
                alloc: walk.alloc,
                plan,
                query: walk.query,
            };
            return run_cached(&asked, chain, uses, side, room);
        }
    }
    room.plugins.kept = Kept::Off;
    as_given(run_behind(walk, chain, &mut uses.pools, side, room))
}

// Looks into the cache, which lends the entry of a hit, and runs what stands behind it on a miss.
#[inline(never)]
fn run_cached<'a, R: Wait, S: Side>(
    asked: &CacheQuery<'_, R>,
    chain: &'a BlockChain,
    uses: &mut BlockUses,
    side: &mut S,
    room: &mut WalkRoom,
) -> Result<Given<'a>, NoMemory>
    requires clear { room.old.plugins.slot ≡ no_answer }
    requires used { IsUsed chain.now uses.old }
    requires plan { chain.now.cache ≡ Some asked.now.plan.now }
    requires covers { IsTrue (is_in asked.now.query.now.name (cache_zones asked.now.plan.now)) }
    ensures same { SameUses uses.old uses.new }
    ensures takes { TakesBy (numbers_in (inner_of chain.now) asked.now.query.now)
        (cached (mean (behind_of chain.now)) asked.now.plan.now asked.now.query.now)
        (gave result room.new.plugins.slot) (taking (S.state side.old) uses.old)
        (taking (S.state side.new) uses.new) }
{
    let Some(cache) = &mut uses.cache else {
        unreachable!()
    };
    match cache.find(asked, side)? {
        Found::Hit(entry, moment) => Ok(Given::Hit(hit_of(chain, entry, moment))),
        Found::Miss(missed) => as_given(run_missed(asked, chain, missed, uses, side, room)),
    }
}

// Becomes an entry's answer, as it is given at this moment.
fn give(
    alloc: Global,
    plan: &CachePlan,
    entry: &Entry,
    moment: u64,
    slot: &mut Slot,
) -> Result<Ended<'static>, NoMemory>
    ensures { IfOk result (λ ended. decision_of ended slot.new
        ≡ decision.Reply (aged plan.now entry.now moment)) }
{
    aged(alloc, plan, entry, moment, slot)?;
    Ok(Ended::Reply)
}

// Runs what stands behind the cache, and puts its answer into the cache.
fn run_missed<'a, R: Wait, S: Side>(
    asked: &CacheQuery<'_, R>,
    chain: &'a BlockChain,
    missed: Missed,
    uses: &mut BlockUses,
    side: &mut S,
    room: &mut WalkRoom,
) -> Result<Ended<'a>, NoMemory>
    requires clear { room.old.plugins.slot ≡ no_answer }
    requires used { IsUsed chain.now uses.old }
    requires plan { chain.now.cache ≡ Some asked.now.plan.now }
    requires covers { IsTrue (is_in asked.now.query.now.name (cache_zones asked.now.plan.now)) }
    requires key { missed.key ≡ key_of asked.now.query.now }
    ensures same { SameUses uses.old uses.new }
    ensures takes { TakesBy (numbers_in (inner_of chain.now) asked.now.query.now)
        (found (mean (behind_of chain.now)) asked.now.plan.now asked.now.query.now missed.moment
        None) (decided result room.new.plugins.slot) (taking (S.state side.old) uses.old)
        (taking (S.state side.new) uses.new) }
{
    let walk = Walk {
        rt: asked.rt,
        alloc: asked.alloc,
        query: asked.query,
    };
    room.plugins.kept = Kept::On(Light::new(asked.alloc));
    let ended = run_behind(&walk, chain, &mut uses.pools, side, room)?;
    let Some(cache) = &mut uses.cache else {
        unreachable!()
    };
    keep_reply(asked, missed, ended, cache, side, &mut room.plugins)
}

// Puts the answer of a reply into the cache, where its rules keep it.
fn keep_reply<'a, R: Wait, S: Side>(
    asked: &CacheQuery<'_, R>,
    missed: Missed,
    ended: Ended<'a>,
    cache: &mut LentCache,
    side: &mut S,
    room: &mut PluginRoom,
) -> Result<Ended<'a>, NoMemory>
    requires key { missed.key ≡ key_of asked.now.query.now }
    requires fair { IsFairFor cache.old.of.cache asked.now.plan.now asked.now.query.now
        missed.moment
        (decision_of ended room.old.slot) room.old.kept }
    ensures same { IsSameUse cache.old cache.new }
    ensures calls { (inner : List InnerMark) → ArePast room.old.kept inner
        → CallsBy (key_of asked.now.query.now)
        (kept_with asked.now.plan.now asked.now.query.now missed.moment inner
        (decision_of ended.entry room.old.slot)) (decided result room.new.slot)
        (state_at (S.state side.old) (use_logs cache.old.of))
        (state_at (S.state side.new) (use_logs cache.new.of)) }
{
    match ended {
        Ended::Reply => keep_answer(asked, missed, cache, side, room),
        Ended::Lent(tail) => {
            tail.copy_into(asked.alloc, &mut room.slot)?;
            keep_answer(asked, missed, cache, side, room)
        }
        Ended::Code(code, cause) => Ok(Ended::Code(code, cause)),
        Ended::Drop => Ok(Ended::Drop),
    }
}

// Puts the answer in the slot into the cache, where its rules keep it.
fn keep_answer<R: Wait, S: Side>(
    asked: &CacheQuery<'_, R>,
    missed: Missed,
    cache: &mut LentCache,
    side: &mut S,
    room: &mut PluginRoom,
) -> Result<Ended<'static>, NoMemory>
    requires key { missed.key ≡ key_of asked.now.query.now }
    requires fair { IsFairFor cache.old.of.cache asked.now.plan.now asked.now.query.now
        missed.moment
        (decision.Reply room.old.slot) room.old.kept }
    ensures same { IsSameUse cache.old cache.new }
    ensures calls { (inner : List InnerMark) → ArePast room.old.kept inner
        → CallsBy (key_of asked.now.query.now)
        (kept_with asked.now.plan.now asked.now.query.now missed.moment inner
        (decision.Reply room.old.slot)) (decided result room.new.slot)
        (state_at (S.state side.old) (use_logs cache.old.of))
        (state_at (S.state side.new) (use_logs cache.new.of)) }
{
    let moment = missed.moment;
    let decided = Decided {
        answer: room.slot.to_answer(asked.alloc)?,
        kept: mem::replace(&mut room.kept, Kept::Off),
    };
    match cache.keep(asked, missed, decided, side)? {
        Some(entry) => give(asked.alloc, asked.plan, &entry, moment, &mut room.slot),
        None => Ok(Ended::Reply),
    }
}
