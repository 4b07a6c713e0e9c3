ghost use Rattle.std.specs.Prelude.{◌≤◌, ◌<◌, ◌+◌, ℕ, length, IfOk, IfSome, IfNone};
ghost use Rattle.dns_wire.specs.Records.{EndsAt, OptAt, OptFieldsAt, PartAt};
ghost use Rattle.dns_wire.specs.Known.{AreKnown};
ghost use Rattle.dns_wire.specs.Reads.{Reads};

use crate::WireFault;
use crate::known::KnownNames;
use crate::name::read_name;
use crate::number::{flag_at, ttl_at, u16_at};
use crate::rdata::read_data;
use dns_data::{Opt, Record, kind};
use std::alloc::Global;

/// A record of a section: OPT or another.
#[derive(Drop)]
pub enum Part {
    Record(Record),
    Opt(Opt),
}

/// Reads the record at an offset, and gives the offset behind it.
pub fn read_part(
    alloc: Global,
    bytes: &[u8],
    known: &mut KnownNames,
    at: usize,
) -> Result<(Part, usize), WireFault>
    requires inside { at ≤ length bytes.now }
    requires known { AreKnown bytes.now known.old }
    ensures spelt { Reads (λ found. PartAt bytes.now at found.0 found.1) result }
    ensures inside { IfOk result (λ found. found.1 ≤ length bytes.now) }
    ensures known { AreKnown bytes.now known.new }
{
    if let Some((opt, behind)) = plain_opt_at(bytes, at) {
        return Ok((Part::Opt(opt), behind));
    }
    let (owner, middle) = read_name(alloc, bytes, known, at)?;
    let Some(behind) = end_of_part(bytes, middle) else {
        return Err(WireFault::Bad);
    };
    let kind = u16_at(bytes, middle);
    if kind == kind::OPT {
        if owner.wire_len() != 1 {
            return Err(WireFault::Bad);
        }
        return Ok((Part::Opt(opt_at(bytes, middle)), behind));
    }
    let rdata = read_data(alloc, bytes, known, kind, middle + 10, behind)?;
    let class = u16_at(bytes, middle + 2);
    let ttl = ttl_at(bytes, middle + 4);
    Ok((Part::Record(Record::new(owner, class, ttl, rdata)), behind))
}

/// The OPT record at an offset, where its owner is a zero byte there, as it mostly is: no name is
/// made for it.
#[inline]
pub fn plain_opt_at(bytes: &[u8], at: usize) -> Option<(Opt, usize)>
    requires { at ≤ length bytes.now }
    ensures spelt { IfSome result (λ found. OptAt bytes.now at found.0 found.1) }
    ensures inside { IfSome result (λ found. found.1 ≤ length bytes.now) }
{
    if bytes.len() == at || bytes[at] != 0 {
        return None;
    }
    let behind = end_of_part(bytes, at + 1)?;
    if u16_at(bytes, at + 1) != kind::OPT {
        return None;
    }
    Some((opt_at(bytes, at + 1), behind))
}

// The offset behind the record whose type stands at an offset, where its data ends within the
// bytes.
#[inline]
fn end_of_part(bytes: &[u8], middle: usize) -> Option<usize>
    requires { middle ≤ length bytes.now }
    ensures found { IfSome result (λ behind. EndsAt bytes.now middle behind) }
    ensures none { IfNone result ((behind : ℕ) → EndsAt bytes.now middle behind → ⊥) }
{
    if bytes.len() - middle < 10 {
        return None;
    }
    let behind = middle + 10 + u16_at(bytes, middle + 8) as usize;
    if bytes.len() < behind {
        return None;
    }
    Some(behind)
}

// What the class and the TTL of an OPT record say (RFC 6891, sections 6.1.2 and 6.1.3).
#[inline]
fn opt_at(bytes: &[u8], middle: usize) -> Opt
    requires { middle + 10 ≤ length bytes.now }
    ensures { OptFieldsAt bytes.now middle result }
{
    Opt {
        size: u16_at(bytes, middle + 2),
        ext: bytes[middle + 4],
        version: bytes[middle + 5],
        dnssec: flag_at(bytes, middle + 6, 7),
    }
}
