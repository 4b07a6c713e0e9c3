ghost use Rattle.std.specs.Prelude.{◌≡◌, ◌++◌, [], ◌∷◌, length, IfOk, IfSome, OnOk};
ghost use Rattle.std.specs.List.{filter, list_any};
ghost use Rattle.std.specs.Option.{option_map};
ghost use Rattle.dns_data.specs.{kind_of};
ghost use Rattle.dns_data.specs.declared.kind.TheConstants as kinds;
ghost use Rattle.zone_lookup.specs.Zone.{is_of};
ghost use Rattle.zone_lookup.specs.ZoneAnswer.{with_addresses, with_hosts, with_set};
ghost use Rattle.zone_tree.specs.Sets.{is_kind, meet, picked, CopiesApart};
ghost use Rattle.zone_tree.specs.Tree.{AreHosts, AreNames, AreSets};

use crate::node::Numbers;
use crate::sets::{copy_kind, is_kind, record_at};
use dns_data::{Name, NoMemory, Record, RecordRoom, Zone, kind};
use name_table::NameTable;
use std::alloc::Global;
use zone_lookup::{host_of, is_of, type_of};

/// The hosts of a longer NS set are searched for each time, so that a zone's numbers stay in
/// proportion to its records. So are those of a host with more records.
const MOST: usize = 32;

/// The numbers of the addresses of the hosts that each name's NS set names.
pub fn hosts_of(
    alloc: Global,
    zone: &Zone,
    table: &NameTable,
    sets: &[Numbers],
) -> Result<Vec<Option<Numbers>>, NoMemory>
    requires names { AreNames table.now zone.now.records }
    requires sets { AreSets table.now zone.now.records sets.now (length zone.now.records) }
    ensures { IfOk result
        (λ hosts. AreHosts table.now zone.now hosts.items (length table.now)) }
{
    let mut servers = RecordRoom::new(alloc);
    let mut hosts = Vec::with_capacity(alloc, table.len())?;
    for i in 0..table.len() {
        servers.clear();
        let records = zone.records.as_slice();
        copy_kind(alloc, records, sets[i].as_slice(), kind::NS, &mut servers)?;
        hosts.push(few_hosts(alloc, zone, table, sets, servers.as_slice())?)?;
    }
    Ok(hosts)
}

// The numbers of the addresses of the hosts of an NS set, where these are few.
fn few_hosts(
    alloc: Global,
    zone: &Zone,
    table: &NameTable,
    sets: &[Numbers],
    servers: &[Record],
) -> Result<Option<Numbers>, NoMemory>
    requires names { AreNames table.now zone.now.records }
    requires sets { AreSets table.now zone.now.records sets.now (length zone.now.records) }
    ensures { IfOk result (λ hosts. IfSome hosts
        (λ set. picked zone.now.records set ≡ with_hosts zone.now [] [] servers.now)) }
{
    if !are_few(table, sets, servers) {
        return Ok(None);
    }
    Ok(Some(numbers_of(alloc, zone, table, sets, servers)?))
}

// Whether neither the records nor those at any of their hosts are many.
fn are_few(table: &NameTable, sets: &[Numbers], servers: &[Record]) -> bool {
    if MOST < servers.len() {
        return false;
    }
    for server in servers {
        if let Some(number) = number_of_host(table, server) {
            if number < sets.len() && MOST < sets[number].len() {
                return false;
            }
        }
    }
    true
}

fn number_of_host(table: &NameTable, server: &Record) -> Option<usize> {
    table.find(&host_of(server)?.labels())
}

fn numbers_of(
    alloc: Global,
    zone: &Zone,
    table: &NameTable,
    sets: &[Numbers],
    servers: &[Record],
) -> Result<Numbers, NoMemory>
    requires names { AreNames table.now zone.now.records }
    requires sets { AreSets table.now zone.now.records sets.now (length zone.now.records) }
    ensures { IfOk result
        (λ hosts. picked zone.now.records hosts ≡ with_hosts zone.now [] [] servers.now) }
{
    let mut hosts = Numbers::new(alloc);
    for record in servers {
        add_addresses(zone, table, sets, host_of(record), &mut hosts)?;
    }
    Ok(hosts)
}

fn add_addresses(
    zone: &Zone,
    table: &NameTable,
    sets: &[Numbers],
    host: Option<&Name>,
    hosts: &mut Numbers,
) -> Result<(), NoMemory>
    requires names { AreNames table.now zone.now.records }
    requires sets { AreSets table.now zone.now.records sets.now (length zone.now.records) }
    ensures { OnOk result (picked zone.now.records hosts.new
        ≡ with_addresses zone.now [] (picked zone.now.records hosts.old)
        (option_map (λ name. name.now) host.entry)) }
{
    if let Some(name) = host {
        add_set(zone, table, sets, name, kind::A, hosts)?;
        add_set(zone, table, sets, name, kind::AAAA, hosts)?;
    }
    Ok(())
}

fn add_set(
    zone: &Zone,
    table: &NameTable,
    sets: &[Numbers],
    name: &Name,
    kind: u16,
    hosts: &mut Numbers,
) -> Result<(), NoMemory>
    requires names { AreNames table.now zone.now.records }
    requires sets { AreSets table.now zone.now.records sets.now (length zone.now.records) }
    requires kind { kind ≡ kinds.ANY → ⊥ }
    ensures { OnOk result (picked zone.now.records hosts.new
        ≡ with_set zone.now [] (picked zone.now.records hosts.old) name.now kind) }
{
    let records = zone.records.as_slice();
    if has_of(records, hosts.as_slice(), name, kind) {
        return Ok(());
    }
    let Some(number) = table.find(&name.labels()) else {
        return Ok(());
    };
    add_kind(records, sets[number].as_slice(), kind, hosts)
}

// Whether one of the records has the name and the type.
fn has_of(records: &[Record], set: &[usize], name: &Name, kind: u16) -> bool
    ensures { result ≡ list_any (is_of name.now kind) (picked records.now set.now) }
{
    for number in set {
        if let Some(record) = record_at(records, *number) {
            if is_of(record, name, kind) {
                return true;
            }
        }
    }
    false
}

// Appends the numbers of the records of a type.
fn add_kind(records: &[Record], set: &[usize], kind: u16, out: &mut Numbers) -> Result<(), NoMemory>
    ensures { OnOk result (picked records.now out.new
        ≡ picked records.now out.old ++ filter (is_kind kind) (picked records.now set.now)) }
{
    for number in set {
        if let Some(record) = record_at(records, *number) {
            if is_kind(record, kind) {
                out.push(*number)?;
            }
        }
    }
    Ok(())
}

/// Appends copies of the records of these numbers.
#[inline]
pub fn copy_numbers(
    alloc: Global,
    records: &[Record],
    set: &[usize],
    out: &mut RecordRoom,
) -> Result<(), NoMemory>
    ensures { OnOk result (out.new ≡ out.old ++ picked records.now set.now) }
{
    for number in set {
        if let Some(record) = record_at(records, *number) {
            out.push(alloc, record)?;
        }
    }
    Ok(())
}

/// Appends copies of the records of these numbers, where none has the name and the type of one of
/// the answer's or of one that is there. Says whether it did.
#[inline]
pub fn copy_apart(
    alloc: Global,
    records: &[Record],
    set: &[usize],
    answer: &[Record],
    out: &mut RecordRoom,
) -> Result<bool, NoMemory>
    ensures { IfOk result (λ done. CopiesApart done answer.now (picked records.now set.now)
        out.old out.new) }
{
    if meet(records, set, answer) {
        return Ok(false);
    }
    if meet(records, set, out.as_slice()) {
        return Ok(false);
    }
    copy_numbers(alloc, records, set, out)?;
    Ok(true)
}

// Whether one of the records of these numbers has the name and the type of one of the others.
#[inline(always)]
fn meet(records: &[Record], set: &[usize], others: &[Record]) -> bool
    ensures { result ≡ meet others.now (picked records.now set.now) }
{
    if others.len() == 0 {
        return false;
    }
    meet_some(records, set, others)
}

#[inline(never)]
fn meet_some(records: &[Record], set: &[usize], others: &[Record]) -> bool
    ensures { result ≡ meet others.now (picked records.now set.now) }
{
    for number in set {
        if let Some(record) = record_at(records, *number) {
            if has_like(others, record) {
                return true;
            }
        }
    }
    false
}

/// Whether one has the name and the type of a record.
#[inline]
pub fn has_like(others: &[Record], entry: &Record) -> bool
    ensures { result ≡ list_any (is_of entry.now.owner (kind_of entry.now.rdata)) others.now }
{
    for other in others {
        if is_like(other, entry) {
            return true;
        }
    }
    false
}

// The names first: most have other lengths.
#[inline]
fn is_like(other: &Record, entry: &Record) -> bool
    ensures { result ≡ is_of entry.now.owner (kind_of entry.now.rdata) other.now }
{
    if !other.owner.same(&entry.owner) {
        return false;
    }
    let kind = type_of(entry);
    is_of(other, &entry.owner, kind)
}
