ghost use Rattle.std.specs.Prelude.{◌≡◌, Ok, IfSome};
ghost use Rattle.std.specs.List.{Contains, list_any};
ghost use Rattle.dns_data.specs.{is_same};
ghost use Rattle.file_plugin.specs.Reading.{has_zone};
ghost use Rattle.file_plugin.specs.Zones.{read_from, served_of};

use crate::served::ServedZone;
use dns_data::{Bytes, Directive, Name, Names, Seq, are_equal};
use std::marker::Model;

/// A directive `file`, with its zones, read once. Contracts see the directive, the zones of its
/// block, and the bytes of its file.
#[derive(Debug, Drop)]
pub struct FilePlan {
    pub(crate) directive: Directive,
    pub(crate) default: Names,
    pub(crate) text: Bytes,
    pub(crate) loaded: Seq<ServedZone>,
}

impl Model for FilePlan {
    ghost use Rattle.std.specs.Prelude.{◌≡◌};
    ghost use Rattle.file_plugin.specs.Zones.{FileData, served_of};

    ghost Value = { FileData };

    ghost view = { λ p. record { directive = p.directive; zones = p.default; text = p.text } };

    ghost invariant = { λ p.
        p.loaded ≡ served_of
        (record { directive = p.directive; zones = p.default; text = p.text }) };
}

impl FilePlan {
    /// Its zones.
    pub(crate) fn zones(&self) -> &[ServedZone]
        ensures { result.now ≡ served_of self.now }
    {
        self.loaded.as_slice()
    }

    /// Whether it has a zone of this origin.
    pub(crate) fn has_zone(&self, origin: &Name) -> bool
        ensures { result ≡ has_zone origin.now self.now }
    {
        has_origin(self.zones(), origin)
    }

    /// Its zone of this origin, where it has one, and its file is this text.
    pub(crate) fn zone_in(&self, origin: &Name, text: &[u8]) -> Option<&ServedZone>
        ensures { IfSome result (λ found. read_from text.now origin.now ≡ Ok found.now.zone) }
    {
        let found = find(self.zones(), origin)?;
        if are_equal(self.text.as_slice(), text) {
            return Some(found);
        }
        None
    }
}

// Whether one of these zones has this origin.
fn has_origin(zones: &[ServedZone], origin: &Name) -> bool
    ensures { result ≡ list_any (λ served. is_same served.zone.origin origin.now) zones.now }
{
    for zone in zones {
        if zone.origin().same(origin) {
            return true;
        }
    }
    false
}

// The first of these zones that has this origin, byte for byte.
fn find<'a>(zones: &'a [ServedZone], origin: &Name) -> Option<&'a ServedZone>
    ensures { IfSome result
        (λ found. Contains zones.now found.now × (found.now.zone.origin ≡ origin.now)) }
{
    for zone in zones {
        if zone.origin().equals(origin) {
            return Some(zone);
        }
    }
    None
}
