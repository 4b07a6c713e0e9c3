ghost use Rattle.std.specs.Prelude.{◌≡◌, ◌<◌, ◌&&◌, not, length, slice_get, Some, None, IfOk};
ghost use Rattle.std.specs.Option.{option_or};
ghost use Rattle.zone_lookup.specs.Zone.{only_if};
ghost use Rattle.zone_tree.specs.Tree.{AreCuts, AreSets, IsShape};

use crate::node::{Node, Numbers};
use crate::sets::has_asked;
use dns_data::{NoMemory, Zone, kind};
use name_table::NameTable;
use std::alloc::Global;

/// The number of the cut at or above each name.
pub fn cuts_of(
    alloc: Global,
    zone: &Zone,
    table: &NameTable,
    nodes: &[Node],
    sets: &[Numbers],
) -> Result<Vec<Option<usize>>, NoMemory>
    requires shape { IsShape table.now nodes.now }
    requires sets { AreSets table.now zone.now.records sets.now (length zone.now.records) }
    ensures { IfOk result
        (λ cuts. AreCuts table.now zone.now cuts.items (length table.now)) }
{
    let top = zone.origin.label_count();
    let mut cuts = Vec::with_capacity(alloc, table.len())?;
    for i in 0..table.len() {
        let node = &nodes[i];
        let has_servers = has_asked(zone.records.as_slice(), sets[i].as_slice(), kind::NS);
        let above = cut_above(node, &cuts);
        cuts.push(cut_or(above, top < node.labels, node.is_wild, has_servers, i))?;
    }
    Ok(cuts)
}

// The cut of the name above.
fn cut_above(node: &Node, cuts: &[Option<usize>]) -> Option<usize>
    requires { 0 < node.now.labels → node.now.above < length cuts.now }
    ensures root { node.now.labels ≡ 0 → result ≡ None }
    ensures below { 0 < node.now.labels → slice_get cuts.now node.now.above ≡ Some result }
{
    if node.labels == 0 {
        return None;
    }
    cuts[node.above]
}

// The cut above, or else the number, where it is that of a cut.
fn cut_or(
    above: Option<usize>,
    is_below: bool,
    is_wild: bool,
    has_servers: bool,
    number: usize,
) -> Option<usize>
    ensures { result ≡ option_or above (only_if (is_below && not is_wild && has_servers) number) }
{
    if let Some(cut) = above {
        return Some(cut);
    }
    if is_below && !is_wild && has_servers {
        return Some(number);
    }
    None
}
