ghost use Rattle.std.specs.Prelude.{true, ◌≡◌, ◌++◌, ◌≤◌, ◌&&◌, ◌==◌, not, [], ◌∷◌, length, drop};
ghost use Rattle.std.specs.Prelude.{map, nat_le, Option, Some, None, OnOk, IfOk};
ghost use Rattle.std.specs.Option.{option_or};
ghost use Rattle.dns_data.specs.declared.kind.TheConstants as kinds;
ghost use Rattle.zone_lookup.specs.Zone.{only_if, star_of};
ghost use Rattle.zone_lookup.specs.ZoneAnswer.{with_owner, target_of, alias_of, denying};
ghost use Rattle.zone_lookup.specs.ZoneAnswer.{negative_ttl};

use dns_data::{Copies, Name, NoMemory, Rdata, Record, RecordRoom, kind, limit};
use dns_write::Tail;
use std::alloc::Global;

/// What a name gave beside records: whether neither it nor a wildcard for it exists, and where a
/// CNAME leads to.
#[derive(Debug, Drop)]
pub struct Find {
    pub absent: bool,
    pub target: Option<Name>,
}

/// What a search for a name gave: the NS set of a cut at or above it, or what the name gives.
#[derive(Debug, Drop)]
pub enum Step {
    Cut,
    Found(Find),
}

/// What a question came to: a cut at or above its name, of which the referral stands in the slot or
/// its two sections are lent, or what the name gives.
#[derive(Debug, Drop)]
pub enum Reached<'a> {
    Cut,
    Lent(&'a Tail),
    Found(Find),
}

/// No name and no wildcard for it.
pub fn nothing() -> Find
    ensures absent { result.absent ≡ true }
    ensures target { result.target ≡ None }
{
    Find {
        absent: true,
        target: None,
    }
}

/// A name, where it has NS and is no wildcard, or else what there was.
pub fn cut_or(name: Name, has_servers: bool, is_wild: bool, other: Option<Name>) -> Option<Name>
    ensures { result ≡ option_or (only_if (has_servers && not is_wild) name) other }
{
    if has_servers && !is_wild {
        Some(name)
    } else {
        other
    }
}

/// Whether a CNAME stands in for records of a type.
pub fn is_aliased_kind(kind: u16) -> bool
    ensures { result ≡ (not (kind == kinds.CNAME) && not (kind == kinds.ANY)) }
{
    kind != kind::CNAME && kind != kind::ANY
}

/// The wildcard below a name, where it is a name.
pub fn star_below(alloc: Global, top: Option<Name>) -> Result<Option<Name>, NoMemory>
    ensures { IfOk result (λ star. star ≡ star_of top) }
{
    let Some(top) = top else {
        return Ok(None);
    };
    if limit::NAME_BYTES - 2 < top.wire_len() {
        return Ok(None);
    }
    Ok(Some(top.below(alloc, b"*")?))
}

/// Where the first record of a list from some place on leads to.
pub fn target_from(
    alloc: Global,
    records: &RecordRoom,
    from: usize,
) -> Result<Option<Name>, NoMemory>
    requires { from ≤ length records.now }
    ensures { IfOk result (λ target. target ≡ target_of (drop from records.now)) }
{
    if from < records.len() {
        return alias(alloc, &records.as_slice()[from]);
    }
    Ok(None)
}

fn alias(alloc: Global, entry: &Record) -> Result<Option<Name>, NoMemory>
    ensures { IfOk result (λ target. target ≡ alias_of entry.now.rdata) }
{
    match &entry.rdata {
        Rdata::Cname(name) => Ok(Some(name.copy(alloc)?)),
        _ => Ok(None),
    }
}

/// Appends records with another owner.
pub fn push_owned(
    alloc: Global,
    records: &[Record],
    name: &Name,
    out: &mut RecordRoom,
) -> Result<(), NoMemory>
    ensures { OnOk result (out.new ≡ out.old ++ map (with_owner name.now) records.now) }
{
    for record in records {
        let ttl = record.ttl;
        out.push_copy(alloc, name, ttl, record)?;
    }
    Ok(())
}

/// Appends SOA records with the TTL of a denial.
pub fn push_denying(alloc: Global, records: &[Record], out: &mut RecordRoom) -> Result<(), NoMemory>
    ensures { OnOk result (out.new ≡ out.old ++ map denying records.now) }
{
    for record in records {
        push_one_denying(alloc, record, out)?;
    }
    Ok(())
}

/// Appends an SOA record with the TTL of a denial.
pub fn push_one_denying(alloc: Global, entry: &Record, out: &mut RecordRoom) -> Result<(), NoMemory>
    ensures { OnOk result (out.new ≡ out.old ++ denying entry.now ∷ []) }
{
    let ttl = negative_ttl(&entry.rdata, entry.ttl);
    out.push_copy(alloc, &entry.owner, ttl, entry)
}

fn negative_ttl(rdata: &Rdata, ttl: u32) -> u32
    ensures value { result ≡ negative_ttl rdata.now ttl }
    ensures most { result ≤ ttl }
{
    match rdata {
        Rdata::Soa(soa) => ttl.min(soa.minimum),
        _ => ttl,
    }
}
