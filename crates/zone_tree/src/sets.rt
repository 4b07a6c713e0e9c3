ghost use Rattle.std.specs.Prelude.{◌≡◌, ◌++◌, ◌||◌, [], ◌∷◌, cond, Some, None, length, slice_get};
ghost use Rattle.std.specs.Prelude.{IfSome, IfNone, IfOk, OnOk, OnErr, map};
ghost use Rattle.dns_data.specs.declared.kind.TheConstants as kinds;
ghost use Rattle.std.specs.List.{filter, list_any};
ghost use Rattle.zone_lookup.specs.Zone.{by_type, Begins};
ghost use Rattle.zone_lookup.specs.ZoneAnswer.{denying, with_owner};
ghost use Rattle.zone_tree.specs.Sets.{is_asked, is_kind, picked, set_in};
ghost use Rattle.zone_tree.specs.Tree.{AreEmpty, AreSets};

use crate::node::Numbers;
use dns_data::{Copies, Name, NoMemory, Record, RecordRoom, kind};
use name_table::NameTable;
use std::alloc::Global;
use zone_lookup::{push_one_denying, push_owned, type_of};

/// The numbers of the records of each name, in the zone's order.
pub fn sets_of(
    alloc: Global,
    records: &[Record],
    table: &NameTable,
) -> Result<Vec<Numbers>, NoMemory>
    ensures { IfOk result
        (λ sets. AreSets table.now records.now sets.items (length records.now)) }
{
    let mut sets = empty_sets(alloc, table.len())?;
    for i in 0..records.len() {
        let record = &records[i];
        if let Some(number) = table.find(&record.owner.labels()) {
            sets[number].push(i)?;
        }
    }
    Ok(sets)
}

fn empty_sets(alloc: Global, count: usize) -> Result<Vec<Numbers>, NoMemory>
    ensures { IfOk result (λ sets. AreEmpty sets.items count) }
{
    let mut sets = Vec::with_capacity(alloc, count)?;
    for made in 0..count {
        let _ = made;
        sets.push(Numbers::new(alloc))?;
    }
    Ok(sets)
}

/// Whether one of the records has a type, or any for type ANY.
pub fn has_asked(records: &[Record], set: &[usize], kind: u16) -> bool
    ensures { result ≡ list_any (is_asked kind) (picked records.now set.now) }
{
    for number in set {
        if let Some(record) = record_at(records, *number) {
            if is_asked(record, kind) {
                return true;
            }
        }
    }
    false
}

/// The record of a number, where there is one.
#[inline]
pub fn record_at(records: &[Record], number: usize) -> Option<&Record>
    ensures some { IfSome result (λ r. slice_get records.now number ≡ Some r.now) }
    ensures none { IfNone result (slice_get records.now number ≡ None) }
{
    if number < records.len() {
        Some(&records[number])
    } else {
        None
    }
}

#[tactic(auto, unfolding(crate::specs::Sets::is_asked, crate::specs::Sets::is_kind))]
fn is_asked(entry: &Record, kind: u16) -> bool
    ensures { result ≡ is_asked kind entry.now }
{
    kind == kind::ANY || type_of(entry) == kind
}

/// Whether the record has the type.
#[tactic(auto, unfolding(crate::specs::Sets::is_kind))]
pub fn is_kind(entry: &Record, kind: u16) -> bool
    ensures { result ≡ is_kind kind entry.now }
{
    type_of(entry) == kind
}

/// Appends copies of the records of a type, or of all for type ANY, in order of type.
pub fn copy_asked(
    alloc: Global,
    records: &[Record],
    set: &[usize],
    kind: u16,
    out: &mut RecordRoom,
) -> Result<(), NoMemory>
    ensures ok { OnOk result (out.new ≡ out.old ++ set_in (picked records.now set.now) kind) }
    ensures err { OnErr result (Begins out.old out.new) }
{
    if kind == kind::ANY {
        return copy_all(alloc, records, set, out);
    }
    copy_kind(alloc, records, set, kind, out)
}

/// Appends copies of the records of a type.
pub fn copy_kind(
    alloc: Global,
    records: &[Record],
    set: &[usize],
    kind: u16,
    out: &mut RecordRoom,
) -> Result<(), NoMemory>
    ensures ok { OnOk result
        (out.new ≡ out.old ++ filter (is_kind kind) (picked records.now set.now)) }
    ensures err { OnErr result (Begins out.old out.new) }
{
    for number in set {
        if let Some(record) = record_at(records, *number) {
            if is_kind(record, kind) {
                out.push(alloc, record)?;
            }
        }
    }
    Ok(())
}

/// Appends the same. Says whether a CNAME is among all of them.
pub fn copy_and_tell(
    alloc: Global,
    records: &[Record],
    set: &[usize],
    kind: u16,
    out: &mut RecordRoom,
) -> Result<bool, NoMemory>
    ensures copied { OnOk result
        (out.new ≡ out.old ++ filter (is_kind kind) (picked records.now set.now)) }
    ensures alias { IfOk result
        (λ has. has ≡ list_any (is_kind kinds.CNAME) (picked records.now set.now)) }
{
    let mut has_alias = false;
    for number in set {
        if let Some(record) = record_at(records, *number) {
            has_alias = has_alias_by(has_alias, record);
            copy_one(alloc, record, kind, out)?;
        }
    }
    Ok(has_alias)
}

// Whether there was a CNAME, or this is one.
#[inline]
fn has_alias_by(before: bool, entry: &Record) -> bool
    ensures { result ≡ (before || is_kind kinds.CNAME entry.now) }
{
    before || is_kind(entry, kind::CNAME)
}

// Appends a copy of a record of the type.
#[inline]
fn copy_one(alloc: Global, entry: &Record, kind: u16, out: &mut RecordRoom) -> Result<(), NoMemory>
    ensures { OnOk result
        (out.new ≡ cond (is_kind kind entry.now) (out.old ++ entry.now ∷ []) out.old) }
{
    if is_kind(entry, kind) {
        return out.push(alloc, entry);
    }
    Ok(())
}

/// Appends the same with another owner.
pub fn copy_owned(
    alloc: Global,
    records: &[Record],
    set: &[usize],
    kind: u16,
    name: &Name,
    out: &mut RecordRoom,
) -> Result<(), NoMemory>
    ensures { OnOk result (out.new ≡ out.old
        ++ map (with_owner name.now) (set_in (picked records.now set.now) kind)) }
{
    if kind == kind::ANY {
        return copy_all_owned(alloc, records, set, name, out);
    }
    copy_kind_owned(alloc, records, set, kind, name, out)
}

fn copy_all_owned(
    alloc: Global,
    records: &[Record],
    set: &[usize],
    name: &Name,
    out: &mut RecordRoom,
) -> Result<(), NoMemory>
    ensures { OnOk result (out.new ≡ out.old
        ++ map (with_owner name.now) (by_type [] (picked records.now set.now))) }
{
    let mut all = copies(alloc, records, set)?;
    sort_by_type(&mut all)?;
    push_owned(alloc, all.as_slice(), name, out)
}

fn copy_kind_owned(
    alloc: Global,
    records: &[Record],
    set: &[usize],
    kind: u16,
    name: &Name,
    out: &mut RecordRoom,
) -> Result<(), NoMemory>
    ensures { OnOk result (out.new ≡ out.old
        ++ map (with_owner name.now) (filter (is_kind kind) (picked records.now set.now))) }
{
    for number in set {
        if let Some(record) = record_at(records, *number) {
            if is_kind(record, kind) {
                push_as(alloc, record, name, out)?;
            }
        }
    }
    Ok(())
}

fn push_as(alloc: Global, entry: &Record, name: &Name, out: &mut RecordRoom) -> Result<(), NoMemory>
    ensures { OnOk result (out.new ≡ out.old ++ with_owner name.now entry.now ∷ []) }
{
    let ttl = entry.ttl;
    out.push_copy(alloc, name, ttl, entry)
}

/// Appends the SOA records, with the TTL of a denial.
pub fn copy_denying(
    alloc: Global,
    records: &[Record],
    set: &[usize],
    out: &mut RecordRoom,
) -> Result<(), NoMemory>
    ensures { OnOk result (out.new ≡ out.old
        ++ map denying (filter (is_kind kinds.SOA) (picked records.now set.now))) }
{
    for number in set {
        if let Some(record) = record_at(records, *number) {
            if is_kind(record, kind::SOA) {
                push_one_denying(alloc, record, out)?;
            }
        }
    }
    Ok(())
}

fn copy_all(
    alloc: Global,
    records: &[Record],
    set: &[usize],
    out: &mut RecordRoom,
) -> Result<(), NoMemory>
    ensures ok { OnOk result (out.new ≡ out.old ++ by_type [] (picked records.now set.now)) }
    ensures err { OnErr result (Begins out.old out.new) }
{
    let mut all = copies(alloc, records, set)?;
    sort_by_type(&mut all)?;
    append(alloc, all.as_slice(), out)
}

fn copies(alloc: Global, records: &[Record], set: &[usize]) -> Result<Vec<Record>, NoMemory>
    ensures { IfOk result (λ all. all.items ≡ picked records.now set.now) }
{
    let mut all = Vec::new(alloc);
    for number in set {
        if let Some(record) = record_at(records, *number) {
            all.push(record.copy(alloc)?)?;
        }
    }
    Ok(all)
}

// Puts records in order of type. Those of one type stay in order.
fn sort_by_type(all: &mut Vec<Record>) -> Result<(), NoMemory>
    ensures { OnOk result (all.new.items ≡ by_type [] all.old.items) }
{
    all.sort_by_key(|record| type_of(record))?;
    Ok(())
}

fn append(alloc: Global, records: &[Record], out: &mut RecordRoom) -> Result<(), NoMemory>
    ensures ok { OnOk result (out.new ≡ out.old ++ records.now) }
    ensures err { OnErr result (Begins out.old out.new) }
{
    for record in records {
        out.push(alloc, record)?;
    }
    Ok(())
}
