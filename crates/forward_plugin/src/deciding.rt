//! The first directive that is for a name is used.
ghost use Rattle.std.specs.Prelude.{◌≡◌, ◌≢◌, ◌<◌, ◌+◌, ◌^◌, [], false, true, length, IfOk, IfSome};
ghost use Rattle.std.specs.List.{All};
ghost use Rattle.forward_plugin.specs.declared.say.ForwardSay.TheVariants.{Next};
ghost use Rattle.forward_plugin.specs.Forward.{forward_means, plan_means, start_means};
ghost use Rattle.forward_plugin.specs.Options.{is_pooled};
ghost use Rattle.forward_plugin.specs.PoolUses.{Finds, IsOwn, SameBut, Uses, calls_by, calls_of};
ghost use Rattle.forward_plugin.specs.PoolUses.{pool_count, pool_place, used_in};
ghost use Rattle.forward_plugin.specs.Taking.{Forwards, state_at, said};

use crate::plan::ForwardPlan;
use crate::pool_calls::draw;
use crate::pool_use::PoolUse;
use crate::rounds::{Round, tries, tries_in_pool};
use crate::say::ForwardSay;
use crate::side_calls::word;
use crate::turn::Turn;
use dns_data::{Name, NoMemory, Query, Slot};
use outside::{Kept, Side};
use std::alloc::Global;
use std::sync::Wait;
use upstream_health::Drawn;

/// A query for the directives of a block, and what a call works with.
#[derive(Drop)]
pub struct ForwardQuery<'a, R> {
    /// By which a worker may wait for the lock of a pool.
    pub rt: &'a R,
    pub alloc: Global,
    /// The directives, in the order of the text.
    pub plans: &'a [ForwardPlan],
    pub query: &'a Query,
}

/// The directive that is used, and how many with pools stand before it.
#[derive(Clone, Copy)]
pub(crate) struct Used<'a> {
    plan: &'a ForwardPlan,
    before: usize,
}

/// What the directives say of a query, whose pools are these: one for each directive that has one,
/// in their order. A reply fills the slot.
pub fn decide<R: Wait, S: Side>(
    asked: &ForwardQuery<'_, R>,
    pools: &mut [PoolUse],
    side: &mut S,
    kept: &mut Kept,
    slot: &mut Slot,
) -> Result<ForwardSay, NoMemory>
    requires own { All IsOwn pools.old }
    requires each { pool_count asked.now.plans.now ≡ length pools.old }
    ensures own { All IsOwn pools.new }
    ensures count { length pools.new ≡ length pools.old }
    ensures asks { Forwards (forward_means asked.now.plans.now asked.now.query.now)
        (said result slot.new)
        (state_at (S.state side.old) kept.old
        (calls_by (pool_place asked.now.plans.now asked.now.query.now.name) pools.old))
        (state_at (S.state side.new) kept.new
        (calls_by (pool_place asked.now.plans.now asked.now.query.now.name) pools.new)) }
    ensures others { SameBut (pool_place asked.now.plans.now asked.now.query.now.name) pools.old
        pools.new }
    ensures next { IfOk result (λ say. say ≡ Next → slot.new ≡ slot.old) }
{
    let Some(used) = find(asked.plans, &asked.query.name, 0) else {
        return Ok(ForwardSay::Next);
    };
    if used.plan.is_pooled() {
        let pool = &mut pools[used.before];
        return decide_in_pool(asked, used.plan, pool, side, kept, slot);
    }
    decide_alone(asked.alloc, used.plan, asked.query, side, kept, slot)
}

// The first directive that is for a name, and how many with pools stand before it.
fn find<'a>(plans: &'a [ForwardPlan], name: &Name, before: usize) -> Option<Used<'a>>
    requires { before + length plans.now < 2 ^ 64 }
    ensures { Finds (used_in name.now plans.now before) result }
{
    let (plan, others) = plans.split_first()?;
    if plan.is_for(name) {
        return Some(Used { plan, before });
    }
    find(others, name, before + plan.is_pooled() as usize)
}

// A directive without a pool.
fn decide_alone<S: Side>(
    alloc: Global,
    plan: &ForwardPlan,
    query: &Query,
    side: &mut S,
    kept: &mut Kept,
    slot: &mut Slot,
) -> Result<ForwardSay, NoMemory>
    requires { is_pooled plan.now ≡ false }
    ensures asks { Forwards (plan_means plan.now query.now) (said result slot.new)
        (state_at (S.state side.old) kept.old []) (state_at (S.state side.new) kept.new []) }
    ensures says { IfOk result (λ say. say ≢ Next) }
{
    let turn = plan.turn(Drawn { number: 0, down: 0 });
    let start = begin(turn.start, plan.count(), side, kept)?;
    let round = Round {
        alloc,
        query,
        by: plan.by(query.by),
        mask: turn.mask,
        order: plan.from_on(start),
    };
    tries(&round, side, kept, slot)
}

// A directive with a pool.
fn decide_in_pool<R: Wait, S: Side>(
    asked: &ForwardQuery<'_, R>,
    plan: &ForwardPlan,
    pool: &mut PoolUse,
    side: &mut S,
    kept: &mut Kept,
    slot: &mut Slot,
) -> Result<ForwardSay, NoMemory>
    requires pooled { is_pooled plan.now ≡ true }
    requires own { IsOwn pool.old }
    ensures own { IsOwn pool.new }
    ensures uses { Uses pool.old pool.new }
    ensures asks { Forwards (plan_means plan.now asked.now.query.now) (said result slot.new)
        (state_at (S.state side.old) kept.old (calls_of pool.old))
        (state_at (S.state side.new) kept.new (calls_of pool.new)) }
    ensures says { IfOk result (λ say. say ≢ Next) }
{
    let drawn = draw(asked.rt, pool, side, kept)?;
    let turn = plan.turn(drawn);
    let start = begin(turn.start, plan.count(), side, kept)?;
    let round = Round {
        alloc: asked.alloc,
        query: asked.query,
        by: plan.by(asked.query.by),
        mask: turn.mask,
        order: plan.from_on(start),
    };
    tries_in_pool(asked.rt, &round, pool, side, kept, slot)
}

// With which upstream a query begins.
fn begin<S: Side>(
    start: Option<usize>,
    count: usize,
    side: &mut S,
    kept: &mut Kept,
) -> Result<usize, NoMemory>
    requires some { 0 < count }
    requires inside { IfSome start (λ s. s < count) }
    ensures asks { Forwards (start_means start count) result
        (state_at (S.state side.old) kept.old []) (state_at (S.state side.new) kept.new []) }
    ensures inside { IfOk result (λ s. s < count) }
{
    match start {
        Some(start) => Ok(start),
        None => {
            let word = word(side, kept)?;
            Ok((word % count as u64) as usize)
        }
    }
}
