ghost use Rattle.std.specs.Prelude.{◌≡◌, ◌++◌, ◌≤◌, [], length, insert, cond, OnOk, OnErr};
ghost use Rattle.std.specs.List.{filter, list_any};
ghost use Rattle.dns_data.specs.{is_within};
ghost use Rattle.zone_lookup.specs.Zone.{is_at, is_of, placed, by_type, Begins};

use crate::ZoneStore;
use crate::hosts::stands_in;
use crate::names::{is_at, is_of, type_of};
use dns_data::{Copies, Name, NoMemory, Record, RecordRoom, Zone, kind};
use std::alloc::Global;

/// A zone as the plain list of its records. Each call walks the whole list.
#[derive(Debug, Drop)]
pub struct PlainZone {
    pub zone: Zone,
}

impl PlainZone {
    pub fn new(zone: Zone) -> PlainZone
        ensures { result.zone ≡ zone }
    {
        PlainZone { zone }
    }
}

impl ZoneStore for PlainZone {
    ghost zone = { λ store. store.zone };

    fn origin(&self) -> &Name {
        &self.zone.origin
    }

    #[tactic(auto, unfolding(crate::specs::Zone::exists_in))]
    fn exists(&self, name: &Name) -> bool {
        lies_above(self.zone.records.as_slice(), name)
    }

    fn has(&self, name: &Name, kind: u16) -> bool {
        let records = self.zone.records.as_slice();
        if kind == kind::ANY {
            return owns_any(records, name);
        }
        stands_in(records, name, kind)
    }

    fn copy_set(
        &self,
        alloc: Global,
        name: &Name,
        kind: u16,
        out: &mut RecordRoom,
    ) -> Result<(), NoMemory> {
        let records = self.zone.records.as_slice();
        if kind == kind::ANY {
            return copy_all(alloc, records, name, out);
        }
        copy_kind(alloc, records, name, kind, out)
    }
}

// Whether an owner is the name or lies below it.
fn lies_above(records: &[Record], name: &Name) -> bool
    ensures { result ≡ list_any (λ r. is_within r.owner name.now) records.now }
{
    for record in records {
        if record.owner.is_within(name) {
            return true;
        }
    }
    false
}

// Whether the name has records of any type.
fn owns_any(records: &[Record], name: &Name) -> bool
    ensures { result ≡ list_any (is_at name.now) records.now }
{
    for record in records {
        if is_at(record, name) {
            return true;
        }
    }
    false
}

fn copy_kind(
    alloc: Global,
    records: &[Record],
    name: &Name,
    kind: u16,
    out: &mut RecordRoom,
) -> Result<(), NoMemory>
    ensures ok { OnOk result (out.new ≡ out.old ++ filter (is_of name.now kind) records.now) }
    ensures err { OnErr result (Begins out.old out.new) }
{
    for record in records {
        if is_of(record, name, kind) {
            out.push(alloc, record)?;
        }
    }
    Ok(())
}

fn copy_all(
    alloc: Global,
    records: &[Record],
    name: &Name,
    out: &mut RecordRoom,
) -> Result<(), NoMemory>
    ensures ok { OnOk result
        (out.new ≡ out.old ++ by_type [] (filter (is_at name.now) records.now)) }
    ensures err { OnErr result (Begins out.old out.new) }
{
    let mut sorted = Vec::new(alloc);
    for record in records {
        place_at(alloc, record, name, &mut sorted)?;
    }
    append(alloc, sorted.as_slice(), out)
}

fn append(alloc: Global, records: &[Record], out: &mut RecordRoom) -> Result<(), NoMemory>
    ensures ok { OnOk result (out.new ≡ out.old ++ records.now) }
    ensures err { OnErr result (Begins out.old out.new) }
{
    for record in records {
        out.push(alloc, record)?;
    }
    Ok(())
}

// Places a copy of a record whose owner is the name.
fn place_at(
    alloc: Global,
    entry: &Record,
    name: &Name,
    sorted: &mut Vec<Record>,
) -> Result<(), NoMemory>
    ensures { OnOk result (sorted.new.items ≡ cond (is_at name.now entry.now)
        (placed entry.now sorted.old.items) sorted.old.items) }
{
    if is_at(entry, name) {
        let copy = entry.copy(alloc)?;
        return place(sorted, copy);
    }
    Ok(())
}

// Puts a record in front of the first whose type is larger.
fn place(sorted: &mut Vec<Record>, entry: Record) -> Result<(), NoMemory>
    ensures { OnOk result (sorted.new.items ≡ placed entry sorted.old.items) }
{
    let index = place_of(sorted.as_slice(), &entry);
    sorted.insert(index, entry)?;
    Ok(())
}

fn place_of(sorted: &[Record], entry: &Record) -> usize
    ensures inside { result ≤ length sorted.now }
    ensures value { placed entry.now sorted.now ≡ insert sorted.now result entry.now }
{
    let kind = type_of(entry);
    for i in 0..sorted.len() {
        if kind < type_of(&sorted[i]) {
            return i;
        }
    }
    sorted.len()
}
