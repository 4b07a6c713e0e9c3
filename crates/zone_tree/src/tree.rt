ghost use Rattle.std.specs.Prelude.{◌≡◌, IfOk};
ghost use Rattle.zone_tree.specs.Tree.{IsNumbered, IsTree};

use crate::cuts::cuts_of;
use crate::hosts::hosts_of;
use crate::node::{Node, Numbers};
use crate::sets::sets_of;
use crate::shape::add_owners;
use dns_data::{Name, NoMemory, Zone};
use name_table::NameTable;
use std::alloc::Global;

/// A zone, and what was found out of each of its names. Their numbers are their places in `nodes`,
/// `sets`, `cuts` and `hosts`.
#[derive(Debug, Drop)]
pub struct Tree {
    pub zone: Zone,
    /// The names that exist, up to the root.
    pub table: NameTable,
    pub nodes: Vec<Node>,
    /// The number of the origin, where records stand at it or below it.
    pub top: Option<usize>,
    /// The numbers of a name's records, in the zone's order.
    pub sets: Vec<Numbers>,
    /// The number of the cut at or above a name.
    pub cuts: Vec<Option<usize>>,
    /// The numbers of the addresses of the hosts that a name's NS set names, where they are kept.
    pub hosts: Vec<Option<Numbers>>,
}

impl Tree {
    /// The tree of a zone, in three passes over its records.
    pub(crate) fn new(alloc: Global, zone: Zone) -> Result<Tree, NoMemory>
        ensures zone { IfOk result (λ tree. tree.zone ≡ zone) }
        ensures whole { IfOk result (λ tree. IsTree tree) }
    {
        let records = zone.records.as_slice();
        let mut table = NameTable::new(alloc, expected(records.len()))?;
        let mut nodes = Vec::new(alloc);
        add_owners(alloc, records, &mut table, &mut nodes)?;
        let top = number_of(&table, &zone.origin);
        let sets = sets_of(alloc, records, &table)?;
        let cuts = cuts_of(alloc, &zone, &table, &nodes, &sets)?;
        let hosts = hosts_of(alloc, &zone, &table, &sets)?;
        Ok(Tree {
            zone,
            table,
            nodes,
            top,
            sets,
            cuts,
            hosts,
        })
    }
}

fn number_of(table: &NameTable, name: &Name) -> Option<usize>
    ensures { IsNumbered table.now result name.now }
{
    table.find(&name.labels())
}

// How many names to make room for.
fn expected(records: usize) -> u32 {
    u32::try_from(records).unwrap_or(u32::MAX)
}
