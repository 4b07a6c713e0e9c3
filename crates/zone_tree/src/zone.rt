ghost use Rattle.std.specs.Prelude.{◌≡◌, IfOk};

use crate::ready::{denial_of, referrals_of, servers_of};
use crate::tree::Tree;
use dns_data::{NoMemory, Zone};
use dns_write::Tail;
use std::alloc::Global;
use std::marker::Model;

/// A zone as a tree of its names, and the sections that many of its answers end in. Contracts see
/// the zone.
#[derive(Debug, Drop)]
pub struct TreeZone {
    pub(crate) tree: Tree,
    /// The origin's NS and the addresses of its hosts, where these are known.
    pub(crate) servers: Option<Tail>,
    /// The SOA of a denial, where there is one.
    pub(crate) denial: Option<Tail>,
    /// By number, the NS of a cut and the addresses of their hosts, as far as they stand ready.
    pub(crate) referrals: Vec<Option<Box<Tail>>>,
}

impl Model for TreeZone {
    ghost use Rattle.dns_data.specs.declared.zone.Zone.{Zone};
    ghost use Rattle.zone_tree.specs.Ready.{AreReady};

    ghost Value = { Zone };

    ghost view = { λ t. t.tree.zone };

    ghost invariant = { λ t. AreReady t.tree t.servers t.denial t.referrals.items };
}

impl TreeZone {
    /// The tree of a zone, and the sections that stand ready.
    pub fn new(alloc: Global, zone: Zone) -> Result<TreeZone, NoMemory>
        ensures { IfOk result (λ made. made ≡ zone) }
    {
        let tree = Tree::new(alloc, zone)?;
        let servers = servers_of(alloc, &tree)?;
        let denial = denial_of(alloc, &tree)?;
        let referrals = referrals_of(alloc, &tree)?;
        Ok(TreeZone {
            tree,
            servers,
            denial,
            referrals,
        })
    }
}
