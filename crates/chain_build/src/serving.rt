ghost use Rattle.dns_data.specs.declared.limit.TheConstants as limits;
ghost use Rattle.std.specs.Prelude.{◌≡◌, ◌≤◌, ◌<◌, ℕ, List, [], Some, None, length};
ghost use Rattle.std.specs.Prelude.{true};
ghost use Rattle.std.specs.Prelude.{IfNone, IfOk, IfSome, IsTrue, IsFalse};
ghost use Rattle.std.specs.Prelude.{option_map, slice_get};
ghost use Rattle.dns_data.specs.Message.{AreCodes, no_answer};
ghost use Rattle.dns_wire.specs.{QueriesThis, asked_by};
ghost use Rattle.dns_write.specs.Assembled.{message_of};
ghost use Rattle.dns_write.specs.Writes.{Writes};
ghost use Rattle.outside.specs.Meanings.{Done};
ghost use Rattle.outside.specs.declared.mark.Mark.{Mark};
ghost use Rattle.chain_meaning.specs.CallsByRun.{chain_calls, turn_calls};
ghost use Rattle.chain_meaning.specs.Mean.{nothing};
ghost use Rattle.chain_meaning.specs.Serving.{answer_in, block_of, chain_decides};
ghost use Rattle.chain_meaning.specs.Serving.{query_decides, query_of};
ghost use Rattle.chain_meaning.specs.Steps.{steps_of};
ghost use Rattle.chain_meaning.specs.declared.decision.Decision.TheVariants as decision;
ghost use Rattle.chain_build.specs.Giving.{decision_in, gave};
ghost use Rattle.chain_build.specs.LoggedWalks.{TakesAt, TakesCalls, chain_runs, serving, taking};
ghost use Rattle.chain_build.specs.Logs.{held_log, shape_of};
ghost use Rattle.chain_build.specs.Plans.{heads_in, inner_of, steps_in};
ghost use Rattle.chain_build.specs.Workers.{chain_identity, chain_log, server_in, server_of};
ghost use Rattle.chain_build.specs.Replying.{Finishes, TellsServing};
ghost use Rattle.chain_build.specs.Replying.{lent_of, whole_answer, whole_message};
ghost use Rattle.chain_build.specs.Holding.{IsHeld, IsSame};
ghost use Rattle.chain_build.specs.Uses.{IsUsed, SameUses};
ghost use Rattle.chain_build.specs.Walking.{IsUncoded, NotesCodes, Tries, decision_of};

use crate::asking::{
    fill_query, header_reply, is_known_version, limit_of, opt_reply, reply_message, upper_code,
};
use crate::back::try_behind;
use crate::block::BlockChain;
use crate::block_chain::{ChainRest, FrontStep};
use crate::block_uses::BlockUses;
use crate::caching::run_inner;
use crate::chain::Chain;
use crate::ended::Ended;
use crate::extras::NoExtras;
use crate::front::run_front;
use crate::given::Given;
use crate::held::Held;
use crate::hits::finish_hit;
use crate::plans::Plans;
use crate::room::{FrontRoom, Room};
use crate::translating::passes_dns64;
use crate::walk::Walk;
use chain_meaning::{Served, Silence, number};
use dns_data::{Buffer, NoMemory, Query, Slot, class, rcode};
use dns_wire::{AskedBeside, QueryFault, read_asked_into};
use dns_write::{MessageParts, Tail, write_lent};
use extra_stock::Seats;
use outside::{Datagram, Side};
use plugin_api::{Extra, Rulebook};
use std::alloc::Global;
use std::sync::Wait;

/// Serves one datagram by a chain. The reply is made in the worker's room.
pub fn serve<R: Wait, B: Rulebook, E: Extra, S: Side>(
    rt: &R,
    alloc: Global,
    chain: &mut Chain<B, E>,
    datagram: &Datagram,
    side: &mut S,
    room: &mut Room,
) -> Served
    ensures tells { TellsServing (server_of chain.old) datagram.now result
        (serving (S.state side.old) (chain_log chain.old))
        (serving (S.state side.new) (chain_log chain.new)) }
    ensures same { chain_identity chain.new ≡ chain_identity chain.old }
{
    let arrived = Arrived {
        rt,
        alloc,
        datagram,
    };
    serve_by(&arrived, &chain.plans, &mut chain.held, side, room)
}

/// A datagram that came, and what serving works with.
#[derive(Drop)]
pub struct Arrived<'a, R> {
    /// By which a worker may wait for the lock of a pool.
    pub rt: &'a R,
    pub alloc: Global,
    pub datagram: &'a Datagram,
}

// Serves one datagram by what was read, and what a chain has for itself.
fn serve_by<R: Wait, B: Rulebook, E: Extra, S: Side>(
    arrived: &Arrived<'_, R>,
    plans: &Plans<B>,
    held: &mut Held<B, E>,
    side: &mut S,
    room: &mut Room,
) -> Served
    requires holds { IsHeld plans.now held.old }
    ensures tells { TellsServing (server_in B.taken B.said plans.now held.old.serial)
        arrived.now.datagram.now result
        (serving (S.state side.old) (held_log held.old.uses.items))
        (serving (S.state side.new) (held_log held.new.uses.items)) }
    ensures holds { IsHeld plans.now held.new }
    ensures same { IsSame held.old held.new }
{
    let (alloc, datagram) = (arrived.alloc, arrived.datagram);
    match read_asked_into(alloc, datagram.bytes.as_slice(), &mut room.query.name) {
        Ok(beside) => reply(arrived, beside, plans, held, side, room),
        Err(QueryFault::Short) => Served::Silent(Silence::Short),
        Err(QueryFault::Response) => Served::Silent(Silence::Response),
        Err(QueryFault::NotImp(head)) => match header_reply(alloc, head, rcode::NOTIMP) {
            Ok(bytes) => Served::Reply(bytes),
            Err(NoMemory) => Served::NoMemory,
        },
        Err(QueryFault::FormErr(head)) => match header_reply(alloc, head, rcode::FORMERR) {
            Ok(bytes) => Served::Reply(bytes),
            Err(NoMemory) => Served::NoMemory,
        },
        Err(QueryFault::NoMemory) => Served::NoMemory,
    }
}

// The reply to what a query asks, whose name stands in the room. A chain is tried first without the
// outside, by calls none of which may wait.
fn reply<R: Wait, B: Rulebook, E: Extra, S: Side>(
    arrived: &Arrived<'_, R>,
    beside: AskedBeside,
    plans: &Plans<B>,
    held: &mut Held<B, E>,
    side: &mut S,
    room: &mut Room,
) -> Served
    requires asks { QueriesThis arrived.now.datagram.now.bytes
        (asked_by room.old.query.name beside) }
    requires holds { IsHeld plans.now held.old }
    ensures tells { TellsServing (server_in B.taken B.said plans.now held.old.serial)
        arrived.now.datagram.now result
        (serving (S.state side.old) (held_log held.old.uses.items))
        (serving (S.state side.new) (held_log held.new.uses.items)) }
    ensures holds { IsHeld plans.now held.new }
    ensures same { IsSame held.old held.new }
{
    let (alloc, datagram) = (arrived.alloc, arrived.datagram);
    plans.tell();
    fill_query(&mut room.query, datagram, beside);
    let slot = &mut room.front.walk.plugins.slot;
    let Some(found) = chain_for(&room.query, beside, plans, slot) else {
        return finish_apart(alloc, datagram, beside, Given::Ended(Ended::Reply), room);
    };
    match try_chain::<B>(alloc, found.1, &room.query, &mut room.front) {
        Ok(Some(ended)) => finish(alloc, datagram, beside, ended, room),
        Ok(None) => {
            let walk = Walk {
                rt: arrived.rt,
                alloc,
                query: &room.query,
            };
            match run_found(&walk, plans, found, held, side, &mut room.front) {
                Ok(given) => finish_apart(alloc, datagram, beside, given, room),
                Err(NoMemory) => Served::NoMemory,
            }
        }
        Err(NoMemory) => Served::NoMemory,
    }
}

// The reply of a chain that gave so, off the common way.
#[inline(never)]
fn finish_apart(
    alloc: Global,
    datagram: &Datagram,
    beside: AskedBeside,
    given: Given<'_>,
    room: &mut Room,
) -> Served
    requires asked { room.old.query ≡ query_of datagram.now
        (asked_by room.old.query.name beside) }
    ensures { Finishes datagram.now (asked_by room.old.query.name beside)
        (decision_in given.entry room.old.front.walk.plugins.slot) result }
{
    match given {
        Given::Ended(ended) => finish(alloc, datagram, beside, ended, room),
        Given::Hit(hit) => finish_hit(alloc, datagram, beside, hit, room),
    }
}

// The reply of a chain that ended so, where it has one, with the answer of a reply in the slot.
#[inline(always)]
fn finish(
    alloc: Global,
    datagram: &Datagram,
    beside: AskedBeside,
    ended: Ended<'_>,
    room: &mut Room,
) -> Served
    requires asked { room.old.query ≡ query_of datagram.now
        (asked_by room.old.query.name beside) }
    ensures { Finishes datagram.now (asked_by room.old.query.name beside)
        (decision_of ended.entry room.old.front.walk.plugins.slot) result }
{
    if !settle(ended, &mut room.front.walk.plugins.slot) {
        return Served::Silent(Silence::Dropped);
    }
    let free = room.take_reply(alloc);
    let (class, slot) = (beside.class, &room.front.walk.plugins.slot);
    let opt = opt_reply(upper_code(beside.opt), beside.opt);
    let parts = reply_message(beside.id, class, opt, &room.query, slot);
    let limit = limit_of(datagram.by, beside.opt);
    match write_whole(alloc, free, &parts, ended, limit) {
        Ok(bytes) => Served::Reply(bytes),
        Err(NoMemory) => Served::NoMemory,
    }
}

// Writes the reply of a chain that ended so, with the records of a tail where one was lent.
#[inline(always)]
fn write_whole<'a>(
    alloc: Global,
    free: Buffer,
    parts: &MessageParts<'a>,
    ended: Ended<'a>,
    limit: u32,
) -> Result<Buffer, NoMemory>
    requires limit { (limits.UDP_BYTES ≤ limit) × (limit ≤ limits.MESSAGE_BYTES) }
    requires codes { AreCodes parts.now.flags.opcode parts.now.flags.rcode }
    ensures { IfOk result (Writes (whole_message ended.entry (message_of parts.now)) limit) }
{
    let tail = lent_by(ended);
    write_lent(alloc, free, parts, tail, limit)
}

// The tail that a chain lends which ended so.
#[inline(always)]
fn lent_by(ended: Ended<'_>) -> Option<&Tail>
    ensures { result ≡ lent_of ended.entry }
{
    match ended {
        Ended::Lent(tail) => Some(tail),
        Ended::Reply | Ended::Code(_, _) | Ended::Drop => None,
    }
}

// Leaves the answer of a chain that ended so in the slot, where it has one. Records of a tail stay
// where they are.
fn settle(ended: Ended<'_>, slot: &mut Slot) -> bool
    ensures reply { IsTrue result
        → answer_in (decision_of ended.entry slot.old) ≡ Some (whole_answer ended.entry slot.new) }
    ensures drop { IsFalse result → decision_of ended.entry slot.old ≡ decision.Drop }
{
    match ended {
        Ended::Reply | Ended::Lent(_) => true,
        Ended::Code(code, _) => {
            slot.clear();
            set_code(slot, number(code));
            true
        }
        Ended::Drop => false,
    }
}

// Whether something stands behind the front of a chain and its extras.
#[inline]
fn has_inner(chain: &BlockChain) -> bool
    ensures some { IsTrue result → 0 < length (inner_of chain.now) }
    ensures none { IsFalse result → inner_of chain.now ≡ [] }
{
    chain.cache.is_some() || chain.rewrites.len() > 0 || chain.back.len() > 0
}

// Becomes an RCODE without records.
fn set_code(slot: &mut Slot, rcode: u8)
    requires small { rcode < limits.CODE_END }
    requires clear { slot.old ≡ no_answer }
    ensures { slot.new ≡ nothing rcode }
{
    slot.rcode = rcode;
}

// The chain that a query with this OPT record and class goes through, and its number, with the slot
// clear. None: it goes through none, and the slot has what it is answered.
fn chain_for<'a, B: Rulebook>(
    query: &Query,
    beside: AskedBeside,
    plans: &'a Plans<B>,
    slot: &mut Slot,
) -> Option<(usize, &'a BlockChain)>
    ensures none { IfNone result ((left : List Mark)
        → query_decides beside.opt beside.class (steps_of B.said plans.now.bundle.files)
        plans.now.blocks query.now left ≡ Done (decision.Reply slot.new) left) }
    ensures some { IfSome result (λ found. (left : List Mark)
        → query_decides beside.opt beside.class (steps_of B.said plans.now.bundle.files)
        plans.now.blocks query.now left
        ≡ chain_decides (steps_in B.said found.1.now) query.now left) }
    ensures clear { IfSome result (λ found. slot.new ≡ no_answer) }
    ensures calls { IfSome result (λ found. (serial : ℕ) → (marks : List Mark)
        → turn_calls (steps_of B.said plans.now.bundle.files) plans.now.blocks serial query.now
        marks ≡ chain_calls (steps_in B.said found.1.now) serial found.0 query.now marks) }
    ensures extras { IfSome result
        (λ found. slice_get plans.now.extras found.0 ≡ Some found.1.now.extras) }
    ensures chain { IfSome result (λ found. slice_get plans.now.chains found.0
        ≡ Some found.1.now) }
{
    slot.clear();
    if !is_known_version(beside.opt) {
        return None;
    }
    if beside.class != class::IN {
        set_code(slot, rcode::REFUSED);
        return None;
    }
    match chain_of(plans, query) {
        Some(found) => Some(found),
        None => {
            set_code(slot, rcode::REFUSED);
            None
        }
    }
}

// The chain of the block with the longest zone on the port at which the query came, and its number.
#[tactic(auto, using(crate::proofs::Served::by_number))]
fn chain_of<'a, B: Rulebook>(plans: &'a Plans<B>, query: &Query) -> Option<(usize, &'a BlockChain)>
    ensures steps { option_map (λ found. steps_in B.said found.1.now) result
        ≡ option_map (steps_of B.said plans.now.bundle.files)
        (block_of plans.now.blocks query.now) }
    ensures calls { IfSome result (λ found. (serial : ℕ) → (marks : List Mark)
        → turn_calls (steps_of B.said plans.now.bundle.files) plans.now.blocks serial query.now
        marks ≡ chain_calls (steps_in B.said found.1.now) serial found.0 query.now marks) }
    ensures extras { IfSome result
        (λ found. slice_get plans.now.extras found.0 ≡ Some found.1.now.extras) }
    ensures chain { IfSome result (λ found. slice_get plans.now.chains found.0
        ≡ Some found.1.now) }
{
    let number = plans.index.find(query.local, &query.name)? as usize;
    if plans.chains.len() <= number {
        return None;
    }
    Some((number, plans.chains.at(number)))
}

// Runs the chain of a block that has no cache, and asks the outside nothing. In front it may have
// `errors`, which notes codes alone, and a `dns64` that leaves the query as it is. None: it is
// another chain, or met a `forward` or ended with a code to be noted, and the slot is clear, as it
// was.
#[inline(always)]
fn try_chain<'a, B: Rulebook>(
    alloc: Global,
    chain: &'a BlockChain,
    query: &Query,
    room: &mut FrontRoom,
) -> Result<Option<Ended<'a>>, NoMemory>
    requires clear { room.old.walk.plugins.slot ≡ no_answer }
    ensures { Tries (chain_decides (steps_in B.said chain.now) query.now)
        room.new.walk.plugins.slot result }
{
    if chain.asks || chain.cache.is_some() {
        return Ok(None);
    }
    if chain.extras.len() > 0 || chain.middle.len() > 0 {
        return Ok(None);
    }
    if !has_inner(chain) {
        return Ok(None);
    }
    let Some(notes) = notes_codes(chain.front.as_slice()) else {
        return Ok(None);
    };
    if !passes_dns64(alloc, chain, query, &mut room.second)? {
        return Ok(None);
    }
    let ended = try_behind(alloc, chain, query, &mut room.walk)?;
    if is_noted(notes, ended) {
        room.walk.plugins.slot.clear();
        return Ok(None);
    }
    Ok(ended)
}

// Whether steps that note are `errors` alone, which notes codes, or none. None: they are others.
#[inline(always)]
fn notes_codes(front: &[FrontStep]) -> Option<bool>
    ensures { IfSome result (NotesCodes front.now) }
{
    let Some((step, more)) = front.split_first() else {
        return Some(false);
    };
    match step {
        FrontStep::Errors if more.len() == 0 => Some(true),
        FrontStep::Errors | FrontStep::Log(_) => None,
    }
}

// Whether a chain ended with a code, where codes are noted.
#[inline(always)]
fn is_noted(notes: bool, ended: Option<Ended<'_>>) -> bool
    ensures { IsFalse result → notes ≡ true → IsUncoded ended.entry }
{
    notes && matches!(ended, Some(Ended::Code(_, _)))
}

// Runs a chain that was found, with what is held for it.
#[inline(never)]
fn run_found<'a, R: Wait, B: Rulebook, E: Extra, S: Side>(
    walk: &Walk<'_, R>,
    plans: &Plans<B>,
    found: (usize, &'a BlockChain),
    held: &mut Held<B, E>,
    side: &mut S,
    room: &mut FrontRoom,
) -> Result<Given<'a>, NoMemory>
    requires clear { room.old.walk.plugins.slot ≡ no_answer }
    requires holds { IsHeld plans.now held.old }
    requires extras { slice_get plans.now.extras found.0 ≡ Some found.1.now.extras }
    requires chain { slice_get plans.now.chains found.0 ≡ Some found.1.now }
    ensures takes { TakesAt (shape_of plans.now held.old.serial)
        (chain_calls (steps_in B.said found.entry.1.now) held.old.serial found.entry.0
        walk.now.query.now)
        (chain_decides (steps_in B.said found.entry.1.now) walk.now.query.now)
        (gave result room.new.walk.plugins.slot)
        (serving (S.state side.old) (held_log held.old.uses.items))
        (serving (S.state side.new) (held_log held.new.uses.items)) }
    ensures holds { IsHeld plans.now held.new }
    ensures same { IsSame held.old held.new }
{
    let (number, chain) = found;
    let (seats, uses) = (&mut held.seats[number], &mut held.uses[number]);
    run_chain(walk, chain, seats, uses, side, room)
}

// Runs the chain of a block, which mostly has no extras and nothing in front of these. One without
// a step refuses.
fn run_chain<'a, R: Wait, B: Rulebook, E: Extra, S: Side>(
    walk: &Walk<'_, R>,
    chain: &'a BlockChain,
    seats: &mut Seats<B, E>,
    uses: &mut BlockUses,
    side: &mut S,
    room: &mut FrontRoom,
) -> Result<Given<'a>, NoMemory>
    requires clear { room.old.walk.plugins.slot ≡ no_answer }
    requires seated { seats.old ≡ chain.now.extras }
    requires used { IsUsed chain.now uses.old }
    ensures takes { TakesCalls
        (chain_runs (steps_in B.said chain.now) walk.now.query.now)
        (chain_decides (steps_in B.said chain.now) walk.now.query.now)
        (gave result room.new.walk.plugins.slot) (taking (S.state side.old) uses.old)
        (taking (S.state side.new) uses.new) }
    ensures seated { seats.new ≡ seats.old }
    ensures same { SameUses uses.old uses.new }
{
    let front = chain.front.as_slice();
    let whole = ChainRest {
        front,
        behind: chain,
    };
    if 0 < chain.extras.len() {
        return run_front(walk, whole, uses, seats, side, room);
    }
    if has_head(chain) {
        return run_front(walk, whole, uses, &mut NoExtras, side, room);
    }
    if has_inner(chain) {
        return run_inner(walk, chain, uses, side, &mut room.walk);
    }
    set_code(&mut room.walk.plugins.slot, rcode::REFUSED);
    Ok(Given::Ended(Ended::Reply))
}

// Whether a chain has steps in front of its extras.
#[inline(always)]
fn has_head(chain: &BlockChain) -> bool
    ensures some { IsTrue result → 0 < length (heads_in chain.now) }
    ensures none { IsFalse result → heads_in chain.now ≡ [] }
{
    if chain.front.len() > 0 {
        return true;
    }
    if chain.dns64.is_some() {
        return true;
    }
    chain.middle.len() > 0
}
