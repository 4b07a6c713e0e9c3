//! The reply of a hit, whose records are written from where they are kept.
ghost use Rattle.dns_data.specs.declared.limit.TheConstants as limits;
ghost use Rattle.std.specs.Prelude.{◌≡◌, ◌≤◌, ◌<◌, ◌^◌, IfOk, IfSome};
ghost use Rattle.dns_data.specs.Message.{AreCodes};
ghost use Rattle.dns_wire.specs.{asked_by};
ghost use Rattle.dns_write.specs.Assembled.{message_of};
ghost use Rattle.dns_write.specs.Writes.{Writes};
ghost use Rattle.chain_meaning.specs.Serving.{query_of, reply_message};
ghost use Rattle.chain_meaning.specs.declared.decision.Decision.TheVariants as decision;
ghost use Rattle.chain_build.specs.Giving.{hit_answer, message_by, ttl_at};
ghost use Rattle.chain_build.specs.Replying.{Finishes};

use crate::asking::{limit_of, opt_reply, upper_code};
use crate::given::Hit;
use crate::room::Room;
use cache_rules::{CachePlan, seconds_left};
use chain_meaning::Served;
use dns_data::{Answer, Buffer, NoMemory, Opt, Query, opcode};
use dns_wire::{AskedBeside, Flags};
use dns_write::{MessageParts, write_aged, write_parts};
use outside::{Datagram, Entry};
use std::alloc::Global;

/// The reply of a chain whose cache found an entry.
#[inline(always)]
pub fn finish_hit(
    alloc: Global,
    datagram: &Datagram,
    beside: AskedBeside,
    hit: Hit<'_>,
    room: &mut Room,
) -> Served
    requires asked { room.old.query ≡ query_of datagram.now
        (asked_by room.old.query.name beside) }
    ensures { Finishes datagram.now (asked_by room.old.query.name beside)
        (decision.Reply (hit_answer hit.entry)) result }
{
    let free = room.take_reply(alloc);
    let opt = opt_reply(upper_code(beside.opt), beside.opt);
    let entry: &Entry = &hit.kept;
    let parts = kept_message(beside.id, beside.class, opt, &room.query, answer_of(entry));
    let limit = limit_of(datagram.by, beside.opt);
    let ttl = ttl_of(hit.plan, entry, hit.moment);
    match write_by(alloc, free, &parts, ttl, limit) {
        Ok(bytes) => Served::Reply(bytes),
        Err(NoMemory) => Served::NoMemory,
    }
}

// Writes a message from where its records are kept, each with this TTL, where there is one.
#[inline(always)]
fn write_by(
    alloc: Global,
    free: Buffer,
    parts: &MessageParts<'_>,
    ttl: Option<u32>,
    limit: u32,
) -> Result<Buffer, NoMemory>
    requires ttl { IfSome ttl (λ seconds. seconds < 2 ^ 31) }
    requires limit { (limits.UDP_BYTES ≤ limit) × (limit ≤ limits.MESSAGE_BYTES) }
    requires codes { AreCodes parts.now.flags.opcode parts.now.flags.rcode }
    ensures { IfOk result (Writes (message_by ttl (message_of parts.now)) limit) }
{
    match ttl {
        None => write_parts(alloc, free, parts, limit),
        Some(ttl) => write_aged(alloc, free, parts, ttl, limit),
    }
}

// The TTL that all records of an entry have at a moment. None: each keeps its own.
fn ttl_of(plan: &CachePlan, entry: &Entry, moment: u64) -> Option<u32>
    ensures value { result ≡ ttl_at plan.now entry.now moment }
    ensures small { IfSome result (λ ttl. ttl < 2 ^ 31) }
{
    if plan.settings().keepttl {
        return None;
    }
    Some(seconds_left(entry.born, entry.life, moment))
}

#[inline(always)]
fn answer_of(entry: &Entry) -> &Answer
    ensures { result.now ≡ entry.now.answer }
{
    &entry.answer
}

// The message that answers a query of this id, class and OPT record, with records as they are kept.
#[inline(always)]
fn kept_message<'a>(
    id: u16,
    class: u16,
    opt: Option<Opt>,
    query: &'a Query,
    answer: &'a Answer,
) -> MessageParts<'a>
    ensures message { message_of result ≡ reply_message id class opt query.now answer.now }
    ensures codes { AreCodes result.flags.opcode result.flags.rcode }
{
    MessageParts {
        flags: Flags {
            id,
            qr: true,
            opcode: opcode::QUERY,
            aa: answer.aa,
            tc: answer.tc,
            rd: query.rd,
            ra: answer.ra,
            ad: false,
            cd: query.cd,
            rcode: answer.rcode,
        },
        name: &query.name,
        kind: query.kind,
        class,
        answer: answer.answer.as_slice(),
        authority: answer.authority.as_slice(),
        additional: answer.additional.as_slice(),
        opt,
    }
}
