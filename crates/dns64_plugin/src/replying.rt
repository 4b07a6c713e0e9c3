//! What is read of replies, and the reply to a query for a name of an address.
ghost use Rattle.std.specs.Prelude.{◌≡◌, ◌<◌, ◌^◌, OnOk, IfSome};
ghost use Rattle.std.specs.List.{list_any};
ghost use Rattle.dns_data.specs.Message.{no_answer};
ghost use Rattle.dns64_plugin.specs.Dns64.{alias_ttl, is_a, is_aaaa, least_ttl, needs_second};
ghost use Rattle.dns64_plugin.specs.Dns64.{ptr_answer, soa_ttl, stands};

use crate::ttl;
use dns_data::{Copies, Name, NoMemory, Query, Rdata, Record, RecordRoom, Slot, class, rcode};
use std::alloc::Global;
use std::mem;

/// Whether the rest runs a second time behind a first reply of this RCODE and these records, for
/// addresses of IPv4, and then the most seconds that a TTL of theirs is. None: the reply stands.
pub fn needs_second(rcode: u8, answer: &[Record], authority: &[Record]) -> Option<u32>
    ensures value { result ≡ needs_second rcode answer.now authority.now }
    ensures small { IfSome result (λ bound. bound < 2 ^ 31) }
{
    if stands(rcode, answer) {
        return None;
    }
    Some(soa_ttl(authority).unwrap_or(ttl::DEFAULT))
}

fn stands(rcode: u8, answer: &[Record]) -> bool
    ensures { result ≡ stands rcode answer.now }
{
    rcode == rcode::NXDOMAIN || (rcode == rcode::NOERROR && has_aaaa(answer))
}

fn has_aaaa(records: &[Record]) -> bool
    ensures { result ≡ list_any (λ r. is_aaaa r.rdata) records.now }
{
    for entry in records {
        if let Rdata::Aaaa(_) = &entry.rdata {
            return true;
        }
    }
    false
}

/// Whether an A is among records.
pub(crate) fn has_a(records: &[Record]) -> bool
    ensures { result ≡ list_any (λ r. is_a r.rdata) records.now }
{
    for entry in records {
        if let Rdata::A(_) = &entry.rdata {
            return true;
        }
    }
    false
}

// The TTL of the first SOA.
fn soa_ttl(records: &[Record]) -> Option<u32>
    ensures value { result ≡ soa_ttl records.now }
    ensures small { IfSome result (λ ttl. ttl < 2 ^ 31) }
{
    for entry in records {
        if let Rdata::Soa(_) = &entry.rdata {
            return Some(entry.ttl);
        }
    }
    None
}

/// Clears the slot for the second run. Its records are made in another room, so that a place in
/// either keeps its type: none is ended and none takes memory.
#[inline]
pub fn clear_for_second(slot: &mut Slot, spare: &mut RecordRoom)
    ensures { slot.new ≡ no_answer }
{
    slot.clear();
    spare.clear();
    mem::swap(&mut slot.answer, spare);
}

/// Puts a CNAME from the name that the client asked for to that of the query which was run in its
/// place in front of the answer. Another RCODE than NOERROR leaves the answer as it is. `spare` is
/// written over.
pub fn ptr_answer(
    alloc: Global,
    query: &Query,
    inner: &Query,
    slot: &mut Slot,
    spare: &mut RecordRoom,
) -> Result<(), NoMemory>
    ensures { OnOk result (slot.new ≡ ptr_answer query.now inner.now slot.old) }
{
    if slot.rcode != rcode::NOERROR {
        return Ok(());
    }
    let ttl = alias_ttl(slot.answer.as_slice());
    let target = Rdata::Cname(inner.name.copy(alloc)?);
    let alias = Record::new(Name::root(alloc), class::IN, ttl, target);
    spare.clear();
    spare.push_copy(alloc, &query.name, ttl, &alias)?;
    spare.push_all(alloc, slot.answer.as_slice())?;
    mem::swap(&mut slot.answer, spare);
    Ok(())
}

// The TTL of a CNAME in front of records.
fn alias_ttl(records: &[Record]) -> u32
    ensures value { result ≡ alias_ttl records.now }
    ensures small { result < 2 ^ 31 }
{
    match records.split_first() {
        Some((first, rest)) => least_ttl(first.ttl, rest),
        None => ttl::DEFAULT,
    }
}

fn least_ttl(least: u32, records: &[Record]) -> u32
    requires { least < 2 ^ 31 }
    ensures value { result ≡ least_ttl least records.now }
    ensures small { result < 2 ^ 31 }
{
    let mut found = least;
    for entry in records {
        found = found.min(entry.ttl);
    }
    found
}
