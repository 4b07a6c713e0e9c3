ghost use Rattle.std.specs.Prelude.{◌≡◌, ◌++◌, [], ◌∷◌, List, cond, false, true, IfOk, OnOk};
ghost use Rattle.std.specs.Prelude.{slice_index_or, slice_set};
ghost use Rattle.std.specs.List.{filter};
ghost use Rattle.std.specs.Option.{option_map};
ghost use Rattle.dns_data.specs.{RecordData};
ghost use Rattle.dns_data.specs.declared.zone.Zone.{Zone};
ghost use Rattle.zone_lookup.specs.ZoneAnswer.{with_addresses, with_hosts};
ghost use Rattle.zone_tree.specs.Marks.{AreMarked, AreSeen};
ghost use Rattle.zone_tree.specs.Sets.{is_kind, picked};
ghost use Rattle.zone_tree.specs.Tree.{IsTree};

use crate::sets::{copy_kind, is_kind};
use crate::tree::Tree;
use dns_data::{Name, NoMemory, Record, RecordRoom, kind};
use name_table::NameTable;
use std::alloc::Global;
use zone_lookup::host_of;

/// Of each name by its number, whether its A and its AAAA records needn't be added.
#[derive(Debug, Drop)]
pub struct Marks {
    pub v4: Vec<bool>,
    pub v6: Vec<bool>,
}

/// Appends the addresses of the hosts that many records name. Each host is searched for once, in
/// the table of names: what is there is marked by its number.
#[inline(never)]
pub fn push_many(
    alloc: Global,
    tree: &Tree,
    answer: &[Record],
    records: &[Record],
    out: &mut RecordRoom,
) -> Result<(), NoMemory>
    requires { IsTree tree.now }
    ensures { OnOk result
        (out.new ≡ with_hosts tree.now.zone answer.now out.old records.now) }
{
    let mut marks = marks_of(alloc, &tree.table, answer, out.as_slice())?;
    for record in records {
        push_unmarked(alloc, tree, answer, host_of(record), &mut marks, out)?;
    }
    Ok(())
}

// The marks of what stands in the answer section and in another one.
fn marks_of(
    alloc: Global,
    table: &NameTable,
    answer: &[Record],
    others: &[Record],
) -> Result<Marks, NoMemory>
    ensures { IfOk result (λ marks. (zone : Zone)
        → AreMarked table.now zone (answer.now ++ others.now) marks) }
{
    let mut marks = Marks {
        v4: vec![in alloc; false; table.len()]?,
        v6: vec![in alloc; false; table.len()]?,
    };
    mark_all(table, answer, &mut marks);
    mark_all(table, others, &mut marks);
    Ok(marks)
}

fn mark_all(table: &NameTable, records: &[Record], marks: &mut Marks)
    ensures { (zone : Zone) (there : List RecordData) → AreMarked table.now zone there marks.old
        → AreMarked table.now zone (there ++ records.now) marks.new }
{
    for record in records {
        mark_one(table, record, marks);
    }
}

fn mark_one(table: &NameTable, entry: &Record, marks: &mut Marks)
    ensures { (zone : Zone) (there : List RecordData) → AreMarked table.now zone there marks.old
        → AreMarked table.now zone (there ++ entry.now ∷ []) marks.new }
{
    mark_kind(table, entry, kind::A, &mut marks.v4);
    mark_kind(table, entry, kind::AAAA, &mut marks.v6);
}

// Marks the owner of a record of the type.
fn mark_kind(table: &NameTable, entry: &Record, kind: u16, marks: &mut Vec<bool>)
    ensures { (zone : Zone) (there : List RecordData)
        → AreSeen table.now zone kind there marks.old.items
        → AreSeen table.now zone kind (there ++ entry.now ∷ []) marks.new.items }
{
    if !is_kind(entry, kind) {
        return;
    }
    let Some(number) = table.find(&entry.owner.labels()) else {
        return;
    };
    set_mark(marks, number);
}

fn set_mark(marks: &mut Vec<bool>, number: usize)
    ensures { marks.new.items ≡ slice_set marks.old.items number true }
{
    if number < marks.len() {
        marks[number] = true;
    }
}

fn is_marked(marks: &[bool], number: usize) -> bool
    ensures { result ≡ slice_index_or marks.now number false }
{
    if number < marks.len() {
        return marks[number];
    }
    false
}

// Appends the addresses of a host, A, then AAAA, as far as they aren't marked, and marks them.
fn push_unmarked(
    alloc: Global,
    tree: &Tree,
    answer: &[Record],
    host: Option<&Name>,
    marks: &mut Marks,
    out: &mut RecordRoom,
) -> Result<(), NoMemory>
    requires tree { IsTree tree.now }
    requires marks { AreMarked tree.now.table tree.now.zone (answer.now ++ out.old) marks.old }
    ensures out { OnOk result (out.new ≡ with_addresses tree.now.zone answer.now out.old
        (option_map (λ name. name.now) host.entry)) }
    ensures marks { OnOk result
        (AreMarked tree.now.table tree.now.zone (answer.now ++ out.new) marks.new) }
{
    let _ = answer;
    let Some(name) = host else {
        return Ok(());
    };
    let Some(number) = tree.table.find(&name.labels()) else {
        return Ok(());
    };
    let node = Node {
        records: tree.zone.records.as_slice(),
        set: tree.sets[number].as_slice(),
        number,
    };
    push_kind(alloc, node, kind::A, &mut marks.v4, out)?;
    push_kind(alloc, node, kind::AAAA, &mut marks.v6, out)?;
    Ok(())
}

// A zone's records, and the numbers of those of a name by its own number.
#[derive(Clone, Copy)]
struct Node<'a> {
    records: &'a [Record],
    set: &'a [usize],
    number: usize,
}

// Appends the records of a type of a name by its number, unless that is marked, and marks it.
fn push_kind(
    alloc: Global,
    node: Node<'_>,
    kind: u16,
    marks: &mut Vec<bool>,
    out: &mut RecordRoom,
) -> Result<(), NoMemory>
    ensures out { OnOk result (out.new ≡ cond
        (slice_index_or marks.old.items node.entry.number false) out.old
        (out.old ++ filter (is_kind kind) (picked node.entry.records.now node.entry.set.now))) }
    ensures marks { OnOk result
        (marks.new.items ≡ slice_set marks.old.items node.entry.number true) }
{
    let is_there = is_marked(marks.as_slice(), node.number);
    set_mark(marks, node.number);
    if is_there {
        return Ok(());
    }
    copy_kind(alloc, node.records, node.set, kind, out)
}
