//! The step `dns64`: what stands behind it runs once or twice, or for another name.
ghost use Rattle.std.specs.Prelude.{◌≡◌, ◌++◌, ◌<◌, ◌^◌, true, map, Some, IfOk, IfSome, IsTrue};
ghost use Rattle.dns_data.specs.Message.{no_answer};
ghost use Rattle.dns64_plugin.specs.{translates};
ghost use Rattle.chain_meaning.specs.CallsByRun.{numbers_in};
ghost use Rattle.chain_meaning.specs.Mean.{mean};
ghost use Rattle.chain_meaning.specs.Translating.{bound_of, combined_in, dns64_means, pointed_by};
ghost use Rattle.chain_meaning.specs.Translating.{pointed_in};
ghost use Rattle.chain_build.specs.Compiled.{middle_of};
ghost use Rattle.chain_build.specs.Giving.{gave};
ghost use Rattle.chain_build.specs.LoggedWalks.{TakesBy, TakesCalls, chain_runs, dns64_runs};
ghost use Rattle.chain_build.specs.LoggedWalks.{pointed_runs, taking};
ghost use Rattle.chain_build.specs.Plans.{inner_of, others_of, rest_of, run_of};
ghost use Rattle.chain_build.specs.Uses.{IsUsed, SameUses};
ghost use Rattle.chain_build.specs.Walking.{PassesDns64, decided, decision_of};

use crate::block::BlockChain;
use crate::block_chain::MiddleRest;
use crate::block_uses::BlockUses;
use crate::ended::Ended;
use crate::extras::Extras;
use crate::front::run_middle;
use crate::given::{Given, as_given, own};
use crate::room::{FrontRoom, WalkRoom};
use crate::walk::Walk;
use dns_data::{NoMemory, Query, Slot};
use dns64_plugin::{Dns64Plan, a_query, clear_for_second, needs_second, ptr_answer, ttl};
use outside::Side;
use std::alloc::Global;
use std::sync::Wait;

/// A plan of `dns64`, and the chain in which it stands.
#[derive(Clone, Copy)]
pub struct Translating<'a> {
    pub plan: &'a Dns64Plan,
    pub chain: &'a BlockChain,
}

/// Whether what stands behind `dns64` gets a query as it is, which it does too where a chain has no
/// such step. The second query is written over.
#[inline(always)]
pub fn passes_dns64(
    alloc: Global,
    chain: &BlockChain,
    query: &Query,
    second: &mut Query,
) -> Result<bool, NoMemory>
    ensures { IfOk result (λ passes. IsTrue passes → PassesDns64 chain.now.dns64 query.now) }
{
    let Some(plan) = &chain.dns64 else {
        return Ok(true);
    };
    if plan.translates(query) {
        return Ok(false);
    }
    Ok(!plan.ptr_query(alloc, query, second)?)
}

/// Runs what is left of a chain behind the steps that note. The slot is clear.
#[inline(always)]
pub fn run_dns64<'a, R: Wait, S: Side, X: Extras>(
    walk: &Walk<'_, R>,
    chain: &'a BlockChain,
    uses: &mut BlockUses,
    extras: &mut X,
    side: &mut S,
    room: &mut FrontRoom,
) -> Result<Given<'a>, NoMemory>
    requires clear { room.old.walk.plugins.slot ≡ no_answer }
    requires used { IsUsed chain.now uses.old }
    ensures same { SameUses uses.old uses.new }
    ensures takes { TakesCalls
        (chain_runs (rest_of (X.says extras.old) chain.now) walk.now.query.now)
        (mean (rest_of (X.says extras.old) chain.now) walk.now.query.now)
        (gave result room.new.walk.plugins.slot) (taking (S.state side.old) uses.old)
        (taking (S.state side.new) uses.new) }
    ensures stays { X.says extras.new ≡ X.says extras.old }
    ensures set { X.directives extras.new ≡ X.directives extras.old }
{
    let middle = chain.middle.as_slice();
    let rest = MiddleRest {
        middle,
        behind: chain,
    };
    let Some(plan) = &chain.dns64 else {
        return run_middle(walk, rest, uses, extras, side, &mut room.walk);
    };
    let at = Translating { plan, chain };
    if plan.translates(walk.query) {
        return as_given(run_twice(walk, at, uses, extras, side, room));
    }
    if plan.ptr_query(walk.alloc, walk.query, &mut room.second)? {
        return as_given(run_pointed(walk, at, uses, extras, side, room));
    }
    run_middle(walk, rest, uses, extras, side, &mut room.walk)
}

// Runs the rest, and where its decision doesn't stand runs it again for addresses of IPv4.
#[inline(never)]
fn run_twice<'a, R: Wait, S: Side, X: Extras>(
    walk: &Walk<'_, R>,
    at: Translating<'a>,
    uses: &mut BlockUses,
    extras: &mut X,
    side: &mut S,
    room: &mut FrontRoom,
) -> Result<Ended<'a>, NoMemory>
    requires both { translates at.plan.now walk.now.query.now ≡ true }
    requires clear { room.old.walk.plugins.slot ≡ no_answer }
    requires used { IsUsed at.chain.now uses.old }
    ensures same { SameUses uses.old uses.new }
    ensures takes { TakesCalls
        (dns64_runs (run_of (X.says extras.old) at.entry.chain.now) at.entry.plan.now
        walk.now.query.now)
        (dns64_means (mean (run_of (X.says extras.old) at.entry.chain.now)) at.entry.plan.now
        walk.now.query.now)
        (decided result room.new.walk.plugins.slot) (taking (S.state side.old) uses.old)
        (taking (S.state side.new) uses.new) }
    ensures stays { X.says extras.new ≡ X.says extras.old }
    ensures set { X.directives extras.new ≡ X.directives extras.old }
{
    let middle = at.chain.middle.as_slice();
    let behind = at.chain;
    let rest = MiddleRest { middle, behind };
    let ended = run_owned(walk, rest, uses, extras, side, &mut room.walk)?;
    let Some(bound) = bound_behind(ended, &room.walk.plugins.slot) else {
        return Ok(ended);
    };
    a_query(walk.query, &mut room.second)?;
    clear_for_second(&mut room.walk.plugins.slot, &mut room.spare);
    let again = Walk {
        rt: walk.rt,
        alloc: walk.alloc,
        query: &room.second,
    };
    let other = run_owned(&again, rest, uses, extras, side, &mut room.walk)?;
    combine_reply(walk.alloc, at.plan, bound, other, room)
}

// Runs what stands behind `dns64`, which changes the answer: that of a hit is copied into the slot.
fn run_owned<'a, R: Wait, S: Side, X: Extras>(
    walk: &Walk<'_, R>,
    steps: MiddleRest<'a>,
    uses: &mut BlockUses,
    extras: &mut X,
    side: &mut S,
    room: &mut WalkRoom,
) -> Result<Ended<'a>, NoMemory>
    requires clear { room.old.plugins.slot ≡ no_answer }
    requires used { IsUsed steps.behind.now uses.old }
    ensures same { SameUses uses.old uses.new }
    ensures takes { TakesBy
        (numbers_in (inner_of steps.entry.behind.now) walk.now.query.now)
        (mean (map middle_of steps.entry.middle.now
        ++ others_of (X.says extras.old) steps.entry.behind.now) walk.now.query.now)
        (decided result room.new.plugins.slot) (taking (S.state side.old) uses.old)
        (taking (S.state side.new) uses.new) }
    ensures stays { X.says extras.new ≡ X.says extras.old }
    ensures set { X.directives extras.new ≡ X.directives extras.old }
{
    let given = run_middle(walk, steps, uses, extras, side, room)?;
    own(walk.alloc, given, &mut room.plugins.slot)
}

// What the first decision bounds TTLs by, where the rest runs again.
fn bound_behind(ended: Ended<'_>, slot: &Slot) -> Option<u32>
    ensures value { result ≡ bound_of (decision_of ended.entry slot.now) }
    ensures small { IfSome result (λ bound. bound < 2 ^ 31) }
{
    let authority = match ended {
        Ended::Reply => slot.authority.as_slice(),
        Ended::Lent(tail) => tail.authority(),
        Ended::Code(_, _) => return Some(ttl::DEFAULT),
        Ended::Drop => return None,
    };
    needs_second(slot.rcode, slot.answer.as_slice(), authority)
}

// The second decision as the client gets it. Records of a tail stay where they are.
fn combine_reply<'a>(
    alloc: Global,
    plan: &Dns64Plan,
    bound: u32,
    ended: Ended<'a>,
    room: &mut FrontRoom,
) -> Result<Ended<'a>, NoMemory>
    requires { bound < 2 ^ 31 }
    ensures { IfOk result (λ e. decision_of e room.new.walk.plugins.slot
        ≡ combined_in plan.now bound (decision_of ended.entry room.old.walk.plugins.slot)) }
{
    match ended {
        Ended::Reply | Ended::Lent(_) => {
            plan.combine(alloc, bound, &mut room.walk.plugins.slot, &mut room.spare)?;
            Ok(ended)
        }
        Ended::Code(_, _) | Ended::Drop => Ok(ended),
    }
}

// Runs the rest for the name of an address of IPv4.
#[inline(never)]
fn run_pointed<'a, R: Wait, S: Side, X: Extras>(
    walk: &Walk<'_, R>,
    at: Translating<'a>,
    uses: &mut BlockUses,
    extras: &mut X,
    side: &mut S,
    room: &mut FrontRoom,
) -> Result<Ended<'a>, NoMemory>
    requires clear { room.old.walk.plugins.slot ≡ no_answer }
    requires used { IsUsed at.chain.now uses.old }
    ensures same { SameUses uses.old uses.new }
    ensures takes { TakesCalls
        (pointed_runs (run_of (X.says extras.old) at.entry.chain.now) at.entry.plan.now
        walk.now.query.now (Some room.old.second))
        (pointed_by (mean (run_of (X.says extras.old) at.entry.chain.now)) at.entry.plan.now
        walk.now.query.now (Some room.old.second))
        (decided result room.new.walk.plugins.slot) (taking (S.state side.old) uses.old)
        (taking (S.state side.new) uses.new) }
    ensures stays { X.says extras.new ≡ X.says extras.old }
    ensures set { X.directives extras.new ≡ X.directives extras.old }
{
    let middle = at.chain.middle.as_slice();
    let behind = at.chain;
    let rest = MiddleRest { middle, behind };
    let inner = Walk {
        rt: walk.rt,
        alloc: walk.alloc,
        query: &room.second,
    };
    let ended = run_owned(&inner, rest, uses, extras, side, &mut room.walk)?;
    point_reply(walk.alloc, walk.query, ended, room)
}

// The decision for that name as the client gets it.
fn point_reply<'a>(
    alloc: Global,
    query: &Query,
    ended: Ended<'a>,
    room: &mut FrontRoom,
) -> Result<Ended<'a>, NoMemory>
    ensures { IfOk result (λ e. decision_of e room.new.walk.plugins.slot
        ≡ pointed_in query.now room.old.second
        (decision_of ended.entry room.old.walk.plugins.slot)) }
{
    match ended {
        Ended::Reply | Ended::Lent(_) => {
            let slot = &mut room.walk.plugins.slot;
            ptr_answer(alloc, query, &room.second, slot, &mut room.spare)?;
            Ok(ended)
        }
        Ended::Code(_, _) | Ended::Drop => Ok(ended),
    }
}
