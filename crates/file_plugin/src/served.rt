ghost use Rattle.std.specs.Prelude.{◌≡◌, IfOk};
ghost use Rattle.std.specs.Arc.{arc_value};
ghost use Rattle.file_plugin.specs.Zones.{denies, goes_on, served_with};

use dns_data::{Copies, Name, Names, NoMemory, Slot, Zone, rcode};
use std::alloc::Global;
use std::marker::Model;
use std::sync::Arc;
use zone_tree::TreeZone;
use zone_words::is_in;

/// A zone as it serves, with the zones in which names go on that it doesn't have. Contracts see the
/// zone and these.
#[derive(Debug, Drop)]
pub struct ServedZone {
    // That of the tree, so that a zone is chosen without a look at that.
    origin: Name,
    tree: Arc<TreeZone>,
    fallthrough: Arc<Names>,
}

impl Model for ServedZone {
    ghost use Rattle.std.specs.Prelude.{◌≡◌};
    ghost use Rattle.std.specs.Arc.{arc_value};
    ghost use Rattle.file_plugin.specs.Zones.{Served};

    ghost Value = { Served };

    ghost view = { λ s. record {
      zone = arc_value s.tree;
      fallthrough = arc_value s.fallthrough;
    } };

    ghost invariant = { λ s. s.origin ≡ (arc_value s.tree).origin };
}

impl ServedZone {
    /// A zone with the zones in which names go on.
    pub(crate) fn new(
        alloc: Global,
        zone: Zone,
        fallthrough: &Arc<Names>,
    ) -> Result<ServedZone, NoMemory>
        ensures { IfOk result (λ served. served ≡ served_with (arc_value fallthrough.now) zone) }
    {
        Ok(ServedZone {
            origin: zone.origin.copy(alloc)?,
            tree: Arc::new(alloc, TreeZone::new(alloc, zone)?)?,
            fallthrough: Arc::try_clone(fallthrough)?,
        })
    }

    /// The same zone, with other zones in which names go on.
    pub(crate) fn again(
        &self,
        alloc: Global,
        fallthrough: &Arc<Names>,
    ) -> Result<ServedZone, NoMemory>
        ensures { IfOk result
            (λ served. served ≡ served_with (arc_value fallthrough.now) self.now.zone) }
    {
        Ok(ServedZone {
            origin: self.origin.copy(alloc)?,
            tree: Arc::try_clone(&self.tree)?,
            fallthrough: Arc::try_clone(fallthrough)?,
        })
    }

    /// The zone.
    #[inline]
    pub fn tree(&self) -> &TreeZone
        ensures { result.now ≡ self.now.zone }
    {
        &self.tree
    }

    /// Its origin.
    #[inline]
    pub(crate) fn origin(&self) -> &Name
        ensures { result.now ≡ self.now.zone.origin }
    {
        &self.origin
    }

    /// Whether a name goes on for which the zone has the answer in the slot.
    pub(crate) fn goes_on(&self, name: &Name, slot: &Slot) -> bool
        ensures { result ≡ goes_on self.now name.now slot.now }
    {
        denies(slot) && is_in(name, self.fallthrough.as_slice())
    }
}

// Whether an answer says that the name that was asked for doesn't exist.
fn denies(slot: &Slot) -> bool
    ensures { result ≡ denies slot.now }
{
    slot.rcode == rcode::NXDOMAIN && slot.answer.len() == 0
}
