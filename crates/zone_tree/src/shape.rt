ghost use Rattle.std.specs.Prelude.{◌≡◌, ◌++◌, ◌<◌, [], ◌∷◌, Some, length, IfOk, OnOk};
ghost use Rattle.std.specs.Prelude.{slice_get, slice_set};
ghost use Rattle.zone_tree.specs.Tree.{starred, starts_wild, Adding, AreNames, Grows, HasAll};
ghost use Rattle.zone_tree.specs.Tree.{IsNew, IsShape};

use crate::node::Node;
use dns_data::{Name, NoMemory, Record};
use name_table::{Longest, NameTable};
use std::alloc::Global;
use zone_lookup::is_star;

/// Adds the names of each owner and all above them.
pub fn add_owners(
    alloc: Global,
    records: &[Record],
    table: &mut NameTable,
    nodes: &mut Vec<Node>,
) -> Result<(), NoMemory>
    requires shape { IsShape table.old nodes.old.items }
    requires empty { table.old ≡ [] }
    ensures shape { OnOk result (IsShape table.new nodes.new.items) }
    ensures names { OnOk result (AreNames table.new records.now) }
{
    for record in records {
        add_owner(alloc, &record.owner, table, nodes)?;
    }
    Ok(())
}

fn add_owner(
    alloc: Global,
    owner: &Name,
    table: &mut NameTable,
    nodes: &mut Vec<Node>,
) -> Result<(), NoMemory>
    requires { IsShape table.old nodes.old.items }
    ensures shape { OnOk result (IsShape table.new nodes.new.items) }
    ensures grows { OnOk result (Grows table.old table.new owner.now) }
    ensures all { OnOk result (HasAll table.new owner.now) }
{
    let start = start_of(alloc, owner, table, nodes)?;
    let mut above = start.above;
    let mut number = start.number;
    while 0 < above {
        above -= 1;
        let name = owner.suffix(alloc, above)?;
        let is_wild = is_star(name.label(0));
        number = push_name(name, is_wild, number, table, nodes)?;
    }
    Ok(())
}

// The longest suffix of an owner that the table has; the root, which is added, where it has none.
fn start_of(
    alloc: Global,
    owner: &Name,
    table: &mut NameTable,
    nodes: &mut Vec<Node>,
) -> Result<Longest, NoMemory>
    requires { IsShape table.old nodes.old.items }
    ensures shape { OnOk result (IsShape table.new nodes.new.items) }
    ensures grows { OnOk result (Grows table.old table.new owner.now) }
    ensures start { IfOk result (λ found. Adding table.new owner.now found.above found.number) }
{
    if let Some(found) = table.find_longest(owner) {
        return Ok(found);
    }
    let above = owner.label_count();
    let number = push_name(Name::root(alloc), false, 0, table, nodes)?;
    Ok(Longest { above, number })
}

// Adds a name below the one of a number, and gives its own.
fn push_name(
    name: Name,
    is_wild: bool,
    above: usize,
    table: &mut NameTable,
    nodes: &mut Vec<Node>,
) -> Result<usize, NoMemory>
    requires shape { IsShape table.old nodes.old.items }
    requires new { IsNew table.old name above }
    requires wild { is_wild ≡ starts_wild name }
    ensures shape { OnOk result (IsShape table.new nodes.new.items) }
    ensures names { OnOk result (table.new ≡ table.old ++ name ∷ []) }
    ensures number { IfOk result (λ number. number ≡ length table.old) }
{
    let number = table.len();
    let labels = name.label_count();
    let _ = name.wire_len();
    table.push(name)?;
    nodes.push(Node {
        above,
        labels,
        is_wild,
        star: None,
    })?;
    if is_wild {
        set_star(nodes, above, number);
    }
    Ok(number)
}

// Tells a node of the wildcard below its name.
fn set_star(nodes: &mut Vec<Node>, number: usize, star: usize)
    requires { number < length nodes.old.items }
    ensures { (at : Node) → slice_get nodes.old.items number ≡ Some at
        → nodes.new.items ≡ slice_set nodes.old.items number (starred at star) }
{
    let node = nodes[number];
    nodes[number] = Node {
        above: node.above,
        labels: node.labels,
        is_wild: node.is_wild,
        star: Some(star),
    };
}
