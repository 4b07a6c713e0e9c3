ghost use Rattle.std.specs.Prelude.{◌≡◌, [], ◌∷◌, None, OnOk, IfOk, length, map};
ghost use Rattle.dns_data.specs.Message.{no_answer};
ghost use Rattle.dns_write.specs.{with_tail};
ghost use Rattle.forward_plugin.specs.{pool_count, pool_place};
ghost use Rattle.rewrite_plugin.specs.{changed_by, restored};
ghost use Rattle.chain_meaning.specs.CallsByRun.{pool_in};
ghost use Rattle.chain_meaning.specs.Mean.{answer_of, mean, rewritten};
ghost use Rattle.chain_meaning.specs.Steps.{Forward};
ghost use Rattle.chain_build.specs.Compiled.{back_answerer, back_of, back_steps};
ghost use Rattle.chain_build.specs.LoggedWalks.{AsksBy, asking};
ghost use Rattle.chain_build.specs.Pools.{AllTake, AsksNothing, HasLoneForward, TakesPools};
ghost use Rattle.chain_build.specs.Pools.{pools_in};
ghost use Rattle.chain_build.specs.Walking.{Answered, Restored, Tries, answered, decided};
ghost use Rattle.chain_build.specs.Walking.{decision_of};

use crate::block::BlockChain;
use crate::block_chain::BackAnswerer;
use crate::ended::Ended;
use crate::room::{PluginRoom, WalkRoom};
use crate::walk::Walk;
use dns_data::{NoMemory, Query};
use dns_write::Tail;
use file_plugin::FileSay;
use forward_plugin::{ForwardPlan, ForwardQuery, ForwardSay, Pools};
use hosts_plugin::HostsSay;
use outside::Side;
use plain_plugins::whoami_answer;
use plugin_api::{Cause, Code};
use rewrite_plugin::{Changed, RewritePlan, change, restore};
use std::alloc::Global;
use std::sync::Wait;
use template_plugin::TemplateSay;

/// Runs what stands behind a cache: the rest is asked what the rules make of the query, and its
/// reply is restored. The slot is clear.
#[inline(always)]
pub fn run_behind<'a, R: Wait, S: Side>(
    walk: &Walk<'_, R>,
    chain: &'a BlockChain,
    pools: &mut Pools,
    side: &mut S,
    room: &mut WalkRoom,
) -> Result<Ended<'a>, NoMemory>
    requires clear { room.old.plugins.slot ≡ no_answer }
    requires pools { length pools.old ≡ pools_in chain.now.back }
    ensures count { length pools.new ≡ length pools.old }
    ensures asks { AsksBy
        (pool_in (back_steps chain.now.rewrites chain.now.back) walk.now.query.now)
        (mean (back_steps chain.now.rewrites chain.now.back) walk.now.query.now)
        (decided result room.new.plugins.slot)
        (asking (S.state side.old) room.old.plugins.kept pools.old)
        (asking (S.state side.new) room.new.plugins.kept pools.new) }
{
    if chain.rewrites.len() == 0 {
        return run_back(walk, chain.back.as_slice(), pools, side, &mut room.plugins);
    }
    run_rewritten(walk, chain, pools, side, room)
}

// Runs the rest on what the rules make of the query, and restores its reply. Stays a call, so that
// a chain without rules is short.
#[inline(never)]
fn run_rewritten<'a, R: Wait, S: Side>(
    walk: &Walk<'_, R>,
    chain: &'a BlockChain,
    pools: &mut Pools,
    side: &mut S,
    room: &mut WalkRoom,
) -> Result<Ended<'a>, NoMemory>
    requires clear { room.old.plugins.slot ≡ no_answer }
    requires pools { length pools.old ≡ pools_in chain.now.back }
    ensures count { length pools.new ≡ length pools.old }
    ensures asks { AsksBy
        (pool_in (map back_of chain.now.back)
        (changed_by chain.now.rewrites walk.now.query.now).query)
        (rewritten (mean (map back_of chain.now.back)) chain.now.rewrites
        (changed_by chain.now.rewrites walk.now.query.now))
        (decided result room.new.plugins.slot)
        (asking (S.state side.old) room.old.plugins.kept pools.old)
        (asking (S.state side.new) room.new.plugins.kept pools.new) }
{
    let (rewrites, back) = (chain.rewrites.as_slice(), chain.back.as_slice());
    change(
        walk.alloc,
        rewrites,
        walk.query,
        &mut room.plugins.rewrite,
        &mut room.changed,
    )?;
    let changed = &room.changed;
    let behind = Walk {
        rt: walk.rt,
        alloc: walk.alloc,
        query: &changed.query,
    };
    let ended = run_back(&behind, back, pools, side, &mut room.plugins)?;
    restore_reply(walk.alloc, rewrites, changed, ended, &mut room.plugins)
}

// Restores the reply in the slot, where the rest ended with one.
fn restore_reply<'a>(
    alloc: Global,
    rewrites: &[RewritePlan],
    changed: &Changed,
    ended: Ended<'a>,
    room: &mut PluginRoom,
) -> Result<Ended<'a>, NoMemory>
    ensures restored { Restored rewrites.now changed.now (decision_of ended.entry room.old.slot)
        room.new.slot result }
    ensures kept { room.new.kept ≡ room.old.kept }
{
    match ended {
        Ended::Reply => {
            restore(alloc, rewrites, changed, &mut room.rewrite, &mut room.slot)?;
            Ok(Ended::Reply)
        }
        Ended::Lent(tail) => {
            restore_lent(alloc, rewrites, changed, tail, room)?;
            Ok(Ended::Reply)
        }
        Ended::Code(code, cause) => Ok(Ended::Code(code, cause)),
        Ended::Drop => Ok(Ended::Drop),
    }
}

// Copies the records of a tail behind the answer in the slot, which then is restored whole.
#[inline(never)]
fn restore_lent(
    alloc: Global,
    rewrites: &[RewritePlan],
    changed: &Changed,
    tail: &Tail,
    room: &mut PluginRoom,
) -> Result<(), NoMemory>
    ensures restored { OnOk result (room.new.slot
        ≡ restored rewrites.now changed.now.steps (with_tail room.old.slot tail.now)) }
    ensures kept { room.new.kept ≡ room.old.kept }
{
    tail.copy_into(alloc, &mut room.slot)?;
    restore(alloc, rewrites, changed, &mut room.rewrite, &mut room.slot)
}

/// Runs the plugins that answer, behind a cache and the rules of `rewrite`. The slot is clear.
pub fn run_back<'a, R: Wait, S: Side>(
    walk: &Walk<'_, R>,
    steps: &'a [BackAnswerer],
    pools: &mut Pools,
    side: &mut S,
    room: &mut PluginRoom,
) -> Result<Ended<'a>, NoMemory>
    requires clear { room.old.slot ≡ no_answer }
    requires pools { AllTake (length pools.old) steps.now }
    requires lone { HasLoneForward (map back_of steps.now) }
    ensures count { length pools.new ≡ length pools.old }
    ensures asks { AsksBy (pool_in (map back_of steps.now) walk.now.query.now)
        (mean (map back_of steps.now) walk.now.query.now)
        (decided result room.new.slot)
        (asking (S.state side.old) room.old.kept pools.old)
        (asking (S.state side.new) room.new.kept pools.new) }
{
    let Some((plugin, rest)) = steps.split_first() else {
        return Ok(Ended::Code(Code::ServFail, Cause::EndOfChain));
    };
    match answer_behind(walk, plugin, pools, side, room)? {
        Some(ended) => Ok(ended),
        None => run_back(walk, rest, pools, side, room),
    }
}

/// Runs what stands behind a cache, and asks the outside nothing. None: it met a `forward`, which
/// is where it stops. The slot is clear, and stays so up to there.
#[inline(always)]
pub fn try_behind<'a>(
    alloc: Global,
    chain: &'a BlockChain,
    query: &Query,
    room: &mut WalkRoom,
) -> Result<Option<Ended<'a>>, NoMemory>
    requires clear { room.old.plugins.slot ≡ no_answer }
    ensures { Tries (mean (back_steps chain.now.rewrites chain.now.back) query.now)
        room.new.plugins.slot result }
{
    if chain.rewrites.len() == 0 {
        return try_back(alloc, chain.back.as_slice(), query, &mut room.plugins);
    }
    try_rewritten(alloc, chain, query, room)
}

// The same on what the rules make of the query, with its reply restored. Stays a call, so that a
// chain without rules is short.
#[inline(never)]
fn try_rewritten<'a>(
    alloc: Global,
    chain: &'a BlockChain,
    query: &Query,
    room: &mut WalkRoom,
) -> Result<Option<Ended<'a>>, NoMemory>
    requires clear { room.old.plugins.slot ≡ no_answer }
    ensures { Tries
        (rewritten (mean (map back_of chain.now.back)) chain.now.rewrites
        (changed_by chain.now.rewrites query.now)) room.new.plugins.slot result }
{
    let (rewrites, back) = (chain.rewrites.as_slice(), chain.back.as_slice());
    change(
        alloc,
        rewrites,
        query,
        &mut room.plugins.rewrite,
        &mut room.changed,
    )?;
    let changed = &room.changed;
    match try_back(alloc, back, &changed.query, &mut room.plugins)? {
        Some(ended) => {
            let restored = restore_reply(alloc, rewrites, changed, ended, &mut room.plugins)?;
            Ok(Some(restored))
        }
        None => Ok(None),
    }
}

/// Runs the plugins that answer, up to the first `forward`. None: one stands there. The slot is
/// clear, and stays so up to there.
pub fn try_back<'a>(
    alloc: Global,
    steps: &'a [BackAnswerer],
    query: &Query,
    room: &mut PluginRoom,
) -> Result<Option<Ended<'a>>, NoMemory>
    requires clear { room.old.slot ≡ no_answer }
    ensures { Tries (mean (map back_of steps.now) query.now) room.new.slot result }
{
    let Some((plugin, rest)) = steps.split_first() else {
        return Ok(Some(Ended::Code(Code::ServFail, Cause::EndOfChain)));
    };
    if let BackAnswerer::Forward(_) = plugin {
        return Ok(None);
    }
    match back_answer(alloc, plugin, query, room)? {
        Some(ended) => Ok(Some(ended)),
        None => try_back(alloc, rest, query, room),
    }
}

/// What a plugin behind a cache answers, with the answer of a reply in the slot, which is clear.
/// None: it goes on.
#[inline(always)]
pub fn answer_behind<'a, R: Wait, S: Side>(
    walk: &Walk<'_, R>,
    plugin: &'a BackAnswerer,
    pools: &mut Pools,
    side: &mut S,
    room: &mut PluginRoom,
) -> Result<Option<Ended<'a>>, NoMemory>
    requires clear { room.old.slot ≡ no_answer }
    requires pools { TakesPools (length pools.old) (back_of plugin.now) }
    ensures count { length pools.new ≡ length pools.old }
    ensures asks { AsksBy (pool_in (back_of plugin.now ∷ []) walk.now.query.now)
        (answer_of (back_answerer plugin.now) walk.now.query.now)
        (answered result room.new.slot)
        (asking (S.state side.old) room.old.kept pools.old)
        (asking (S.state side.new) room.new.kept pools.new) }
    ensures next { IfOk result (λ r. r ≡ None → room.new.slot ≡ room.old.slot) }
{
    if let BackAnswerer::Forward(plans) = plugin {
        return run_forward(walk, plans.as_slice(), pools, side, room);
    }
    back_answer(walk.alloc, plugin, walk.query, room)
}

// Asks the upstreams of the directives `forward` of a block.
#[inline(never)]
fn run_forward<R: Wait, S: Side>(
    walk: &Walk<'_, R>,
    plans: &[ForwardPlan],
    pools: &mut Pools,
    side: &mut S,
    room: &mut PluginRoom,
) -> Result<Option<Ended<'static>>, NoMemory>
    requires { pool_count plans.now ≡ length pools.old }
    ensures count { length pools.new ≡ length pools.old }
    ensures asks { AsksBy (pool_place plans.now walk.now.query.now.name)
        (answer_of (Forward plans.now) walk.now.query.now)
        (answered result room.new.slot)
        (asking (S.state side.old) room.old.kept pools.old)
        (asking (S.state side.new) room.new.kept pools.new) }
    ensures next { IfOk result (λ r. r ≡ None → room.new.slot ≡ room.old.slot) }
{
    let asked = ForwardQuery {
        rt: walk.rt,
        alloc: walk.alloc,
        plans,
        query: walk.query,
    };
    match pools.decide(&asked, side, &mut room.kept, &mut room.slot)? {
        ForwardSay::Reply => Ok(Some(Ended::Reply)),
        ForwardSay::Next => Ok(None),
        ForwardSay::AllFailed => Ok(Some(Ended::Code(Code::ServFail, Cause::AllUpstreams))),
    }
}

/// What a plugin behind a cache that asks nothing answers, with the answer of a reply in the slot,
/// which is clear. None: it goes on. Stands in each walk, so that a step takes no call more.
#[inline(always)]
#[tactic(auto, unfolding(chain_meaning::specs::Mean::answer_of))]
pub fn back_answer<'a>(
    alloc: Global,
    plugin: &'a BackAnswerer,
    query: &Query,
    room: &mut PluginRoom,
) -> Result<Option<Ended<'a>>, NoMemory>
    requires clear { room.old.slot ≡ no_answer }
    requires quiet { AsksNothing plugin.now }
    ensures answered { Answered (back_answerer plugin.now) query.now room.old.slot room.new.slot
        result }
    ensures kept { room.new.kept ≡ room.old.kept }
{
    let slot = &mut room.slot;
    match plugin {
        BackAnswerer::Template(plans) => {
            match template_plugin::decide(
                alloc,
                plans.as_slice(),
                query,
                &mut room.template,
                slot,
            )? {
                TemplateSay::Reply => Ok(Some(Ended::Reply)),
                TemplateSay::Next => Ok(None),
                TemplateSay::NoMatch => Ok(Some(Ended::Code(Code::ServFail, Cause::NoMatch))),
                TemplateSay::NotRecord => Ok(Some(Ended::Code(Code::ServFail, Cause::NotRecord))),
            }
        }
        BackAnswerer::Hosts(plan) => match hosts_plugin::decide(alloc, plan, query, slot)? {
            HostsSay::Reply => Ok(Some(Ended::Reply)),
            HostsSay::Next => Ok(None),
            HostsSay::Unknown => Ok(Some(Ended::Code(Code::ServFail, Cause::UnknownHost))),
        },
        BackAnswerer::File(plans) => {
            match file_plugin::decide(alloc, plans.as_slice(), query, slot)? {
                FileSay::Reply => Ok(Some(Ended::Reply)),
                FileSay::Lent(tail) => Ok(Some(Ended::Lent(tail))),
                FileSay::Next => Ok(None),
            }
        }
        BackAnswerer::Forward(_) => unreachable!(),
        BackAnswerer::Whoami => {
            whoami_answer(alloc, query, slot)?;
            Ok(Some(Ended::Reply))
        }
    }
}
