ghost use Rattle.std.specs.Prelude.{◌≡◌};
ghost use Rattle.std.specs.List.{list_any};
ghost use Rattle.std.specs.Option.{option_map};
ghost use Rattle.zone_lookup.specs.Zone.{is_of};
ghost use Rattle.zone_lookup.specs.ZoneAnswer.{host_of};

use crate::names::is_of;
use dns_data::{Name, Rdata, Record};

/// The host that a record names.
#[inline]
pub fn host_of(entry: &Record) -> Option<&Name>
    ensures { option_map (λ name. name.now) result ≡ host_of entry.now.rdata }
{
    match &entry.rdata {
        Rdata::Ns(name) | Rdata::Mx(_, name) | Rdata::Srv(_, _, _, name) => Some(name),
        _ => None,
    }
}

/// Whether a record of a type stands among records at a name.
pub fn stands_in(records: &[Record], name: &Name, kind: u16) -> bool
    ensures { result ≡ list_any (is_of name.now kind) records.now }
{
    for record in records {
        if is_of(record, name, kind) {
            return true;
        }
    }
    false
}
