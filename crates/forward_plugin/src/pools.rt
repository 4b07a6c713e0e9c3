//! The pools of a block's directives.
ghost use Rattle.std.specs.Prelude.{◌≡◌, ◌<◌, ◌+◌, ◌-◌, ℕ, length, IfOk, OnOk};
ghost use Rattle.std.specs.Arc.{arc_value};
ghost use Rattle.std.specs.List.{All};
ghost use Rattle.forward_plugin.specs.Forward.{forward_means};
ghost use Rattle.forward_plugin.specs.PoolParts.{HasMore, HasParts, IsUncalled};
ghost use Rattle.forward_plugin.specs.PoolUses.{IsOwn, SameBut, calls_by, pool_count, pool_place};
ghost use Rattle.forward_plugin.specs.Taking.{Forwards, state_at, said};
ghost use Rattle.forward_plugin.specs.declared.say.ForwardSay.TheVariants.{Next};

use crate::deciding::{ForwardQuery, decide};
use crate::plan::ForwardPlan;
use crate::pool_use::PoolUse;
use crate::say::ForwardSay;
use dns_data::{NoMemory, Slot};
use outside::{Kept, Side};
use std::alloc::Global;
use std::marker::Model;
use std::sync::{Arc, Wait};
use upstream_health::Pool;

/// A worker's uses of pools, one for each of a block's directives that has a pool, in their order.
/// Contracts see them as a list, each seat at its pool.
#[derive(Drop)]
pub struct Pools {
    uses: Vec<PoolUse>,
}

impl Model for Pools {
    ghost use Rattle.std.specs.Prelude.{List};
    ghost use Rattle.std.specs.List.{All};
    ghost use Rattle.forward_plugin.specs.PoolUses.{IsOwn};
    ghost use Rattle.forward_plugin.specs.declared.pool_use.PoolUse.{PoolUse};

    ghost Value = { List PoolUse };

    ghost view = { λ p. p.uses.items };

    ghost invariant = { λ p. All IsOwn p.uses.items };
}

impl Pools {
    /// New pools for directives, whose seats have so many parts.
    pub fn share(alloc: Global, plans: &[ForwardPlan], parts: u64) -> Result<Pools, NoMemory>
        requires { 0 < parts }
        ensures count { IfOk result (λ pools. length pools ≡ pool_count plans.now) }
        ensures parts { IfOk result (λ pools. All (HasParts parts) pools) }
    {
        let mut uses = Vec::new(alloc);
        share_uses(alloc, plans, parts, &mut uses)?;
        Ok(Pools { uses })
    }

    /// Another worker's uses of these pools, with one part of each.
    pub fn split(&mut self, alloc: Global) -> Result<Pools, NoMemory>
        requires { All HasMore self.old }
        ensures count { IfOk result (λ pools. length pools ≡ length self.old) }
        ensures fresh { IfOk result (λ pools. All IsUncalled pools) }
        ensures stays { length self.new ≡ length self.old }
        ensures parts { (parts : ℕ) → All (HasParts parts) self.old
            → OnOk result (All (HasParts (parts - 1)) self.new) }
    {
        let mut others = Vec::with_capacity(alloc, self.uses.len())?;
        split_uses(alloc, self.uses.as_mut_slice(), &mut others)?;
        Ok(Pools { uses: others })
    }

    /// What directives say of a query. A reply fills the slot.
    pub fn decide<R: Wait, S: Side>(
        &mut self,
        asked: &ForwardQuery<'_, R>,
        side: &mut S,
        kept: &mut Kept,
        slot: &mut Slot,
    ) -> Result<ForwardSay, NoMemory>
        requires { pool_count asked.now.plans.now ≡ length self.old }
        ensures count { length self.new ≡ length self.old }
        ensures asks { Forwards (forward_means asked.now.plans.now asked.now.query.now)
            (said result slot.new)
            (state_at (S.state side.old) kept.old
            (calls_by (pool_place asked.now.plans.now asked.now.query.now.name) self.old))
            (state_at (S.state side.new) kept.new
            (calls_by (pool_place asked.now.plans.now asked.now.query.now.name) self.new)) }
        ensures others { SameBut (pool_place asked.now.plans.now asked.now.query.now.name)
            self.old self.new }
        ensures next { IfOk result (λ say. say ≡ Next → slot.new ≡ slot.old) }
    {
        decide(asked, self.uses.as_mut_slice(), side, kept, slot)
    }
}

// New pools for directives, behind those of others.
fn share_uses(
    alloc: Global,
    plans: &[ForwardPlan],
    parts: u64,
    uses: &mut Vec<PoolUse>,
) -> Result<(), NoMemory>
    requires parts { 0 < parts }
    requires own { All IsOwn uses.old.items }
    requires were { All (HasParts parts) uses.old.items }
    ensures own { All IsOwn uses.new.items }
    ensures count { OnOk result
        (length uses.new.items ≡ length uses.old.items + pool_count plans.now) }
    ensures parts { OnOk result (All (HasParts parts) uses.new.items) }
{
    let Some((plan, rest)) = plans.split_first() else {
        return Ok(());
    };
    if plan.is_pooled() {
        uses.push(new_use(alloc, plan, parts)?)?;
    }
    share_uses(alloc, rest, parts, uses)
}

// The use of a directive's new pool.
fn new_use(alloc: Global, plan: &ForwardPlan, parts: u64) -> Result<PoolUse, NoMemory>
    requires { 0 < parts }
    ensures own { IfOk result IsOwn }
    ensures parts { IfOk result (HasParts parts) }
{
    let (size, most) = (plan.count() as u32, plan.most_fails());
    let Ok((pool, seat)) = Pool::new(alloc, size, most, parts) else {
        return Err(NoMemory);
    };
    let pool = Arc::new(alloc, pool)?;
    Ok(PoolUse { pool, seat })
}

// One part of each, behind others.
#[tactic(auto, using(crate::proofs::Partings::the_rest))]
fn split_uses(
    alloc: Global,
    uses: &mut [PoolUse],
    others: &mut Vec<PoolUse>,
) -> Result<(), NoMemory>
    requires own { All IsOwn uses.old }
    requires more { All HasMore uses.old }
    requires others { All IsOwn others.old.items }
    requires fresh { All IsUncalled others.old.items }
    ensures own { All IsOwn uses.new }
    ensures others { All IsOwn others.new.items }
    ensures fresh { All IsUncalled others.new.items }
    ensures stays { length uses.new ≡ length uses.old }
    ensures count { OnOk result
        (length others.new.items ≡ length others.old.items + length uses.old) }
    ensures parts { (parts : ℕ) → All (HasParts parts) uses.old
        → OnOk result (All (HasParts (parts - 1)) uses.new) }
{
    let Some((first, rest)) = uses.split_first_mut() else {
        return Ok(());
    };
    others.push(split_use(first)?)?;
    split_uses(alloc, rest, others)
}

// One part of it.
fn split_use(used: &mut PoolUse) -> Result<PoolUse, NoMemory>
    requires own { IsOwn used.old }
    requires more { HasMore used.old }
    ensures own { IsOwn used.new }
    ensures result { IfOk result IsOwn }
    ensures fresh { IfOk result IsUncalled }
    ensures parts { (parts : ℕ) → HasParts parts used.old
        → OnOk result (HasParts (parts - 1) used.new) }
{
    let pool = Arc::try_clone(&used.pool)?;
    let seat = pool.split(&mut used.seat);
    Ok(PoolUse { pool, seat })
}
