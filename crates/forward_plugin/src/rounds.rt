//! Upstreams are tried, one after another.
ghost use Rattle.std.specs.Prelude.{◌≡◌, ◌≢◌, [], false, true, IfOk};
ghost use Rattle.std.specs.List.{filter};
ghost use Rattle.upstream_health.specs.Pools.{has_bit};
ghost use Rattle.forward_plugin.specs.declared.say.ForwardSay.TheVariants.{Next};
ghost use Rattle.forward_plugin.specs.Forward.{is_up, judge, most_more, tries, try_of};
ghost use Rattle.forward_plugin.specs.PoolUses.{IsOwn, Uses, calls_of};
ghost use Rattle.forward_plugin.specs.Taking.{Forwards, state_at, said, try_answer};

use crate::ask::ask_bytes;
use crate::numbered::Numbered;
use crate::pool_calls::report;
use crate::pool_use::PoolUse;
use crate::reply::{agreed_in, is_got};
use crate::say::ForwardSay;
use crate::side_calls::{ask, more, word};
use dns_data::{NoMemory, Query, Slot, Transport};
use outside::{Kept, Outcome, Side, Upstream};
use std::alloc::Global;
use std::sync::Wait;

/// What is left of a query's way round its upstreams.
#[derive(Drop)]
pub(crate) struct Round<'a> {
    pub(crate) alloc: Global,
    pub(crate) query: &'a Query,
    /// Over what upstreams are asked.
    pub(crate) by: Transport,
    /// Those that are left out, a bit each.
    pub(crate) mask: u16,
    /// Those that come next, in their order.
    pub(crate) order: &'a [Numbered],
}

/// An ask whose reply is awaited.
#[derive(Drop)]
struct Awaited<'a> {
    alloc: Global,
    word: u64,
    query: &'a Query,
}

// Judges what came, and looks for further datagrams after a reply that doesn't agree.
fn judge<S: Side>(
    asked: &Awaited<'_>,
    most: u8,
    outcome: &Outcome,
    side: &mut S,
    kept: &mut Kept,
    slot: &mut Slot,
) -> Result<bool, NoMemory>
    ensures { Forwards (judge most asked.now.word asked.now.query.now outcome.now)
        (try_answer result slot.new) (state_at (S.state side.old) kept.old [])
        (state_at (S.state side.new) kept.new []) }
{
    if agreed_in(asked.alloc, asked.word, asked.query, outcome, slot)? {
        return Ok(true);
    }
    if most == 0 {
        return Ok(false);
    }
    if !is_got(outcome) {
        return Ok(false);
    }
    let next = more(asked.alloc, side, kept)?;
    judge(asked, most - 1, &next, side, kept, slot)
}

fn most_more(by: Transport) -> u8
    ensures { result ≡ most_more by }
{
    match by {
        Transport::Udp => 3,
        Transport::Tcp => 0,
    }
}

// One try of one upstream.
fn try_of<S: Side>(
    round: &Round<'_>,
    to: &Upstream,
    side: &mut S,
    kept: &mut Kept,
    slot: &mut Slot,
) -> Result<bool, NoMemory>
    ensures { Forwards (try_of to.now round.now.by round.now.query.now)
        (try_answer result slot.new) (state_at (S.state side.old) kept.old [])
        (state_at (S.state side.new) kept.new []) }
{
    let id = word(side, kept)?;
    let message = ask_bytes(round.alloc, id, round.query)?;
    let outcome = ask(round.alloc, to, round.by, message.as_slice(), side, kept)?;
    let asked = Awaited {
        alloc: round.alloc,
        word: id,
        query: round.query,
    };
    judge(&asked, most_more(round.by), &outcome, side, kept, slot)
}

fn has_bit(mask: u16, number: u32) -> bool
    ensures { result ≡ has_bit mask number }
{
    if number == 0 {
        return mask % 2 == 1;
    }
    has_bit(mask / 2, number - 1)
}

/// Whether an upstream's bit is clear.
pub fn is_up(mask: u16, numbered: &Numbered) -> bool
    ensures { result ≡ is_up mask numbered.now }
{
    !has_bit(mask, numbered.number)
}

/// Asks each of these upstreams once, but those that are left out, until one agrees.
pub(crate) fn tries<S: Side>(
    round: &Round<'_>,
    side: &mut S,
    kept: &mut Kept,
    slot: &mut Slot,
) -> Result<ForwardSay, NoMemory>
    ensures asks { Forwards
        (tries round.now.by round.now.query.now false
        (filter (is_up round.now.mask) round.now.order.now))
        (said result slot.new) (state_at (S.state side.old) kept.old [])
        (state_at (S.state side.new) kept.new []) }
    ensures says { IfOk result (λ say. say ≢ Next) }
{
    let Some((first, others)) = round.order.split_first() else {
        return Ok(ForwardSay::AllFailed);
    };
    let rest = Round {
        order: others,
        ..*round
    };
    if !is_up(round.mask, first) {
        return tries(&rest, side, kept, slot);
    }
    if try_of(round, &first.upstream, side, kept, slot)? {
        return Ok(ForwardSay::Reply);
    }
    tries(&rest, side, kept, slot)
}

/// The same in a pool, to which each try is reported.
pub(crate) fn tries_in_pool<R: Wait, S: Side>(
    rt: &R,
    round: &Round<'_>,
    pool: &mut PoolUse,
    side: &mut S,
    kept: &mut Kept,
    slot: &mut Slot,
) -> Result<ForwardSay, NoMemory>
    requires own { IsOwn pool.old }
    ensures own { IsOwn pool.new }
    ensures uses { Uses pool.old pool.new }
    ensures asks { Forwards
        (tries round.now.by round.now.query.now true
        (filter (is_up round.now.mask) round.now.order.now))
        (said result slot.new) (state_at (S.state side.old) kept.old (calls_of pool.old))
        (state_at (S.state side.new) kept.new (calls_of pool.new)) }
    ensures says { IfOk result (λ say. say ≢ Next) }
{
    let Some((first, others)) = round.order.split_first() else {
        return Ok(ForwardSay::AllFailed);
    };
    let rest = Round {
        order: others,
        ..*round
    };
    if !is_up(round.mask, first) {
        return tries_in_pool(rt, &rest, pool, side, kept, slot);
    }
    let agreed = try_of(round, &first.upstream, side, kept, slot)?;
    report(rt, first.number, agreed, pool, side, kept)?;
    if agreed {
        return Ok(ForwardSay::Reply);
    }
    tries_in_pool(rt, &rest, pool, side, kept, slot)
}
