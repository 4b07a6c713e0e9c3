ghost use Rattle.std.specs.Prelude.{◌≡◌};
ghost use Rattle.dns_data.specs.{kind_of};
ghost use Rattle.zone_lookup.specs.Zone.{is_at, is_of, is_star};

use dns_data::{Name, Record};

/// Whether a label is `*`.
pub fn is_star(label: &[u8]) -> bool
    ensures { result ≡ is_star label.now }
{
    label == b"*".as_slice()
}

/// The number of a record's type.
pub fn type_of(entry: &Record) -> u16
    ensures { result ≡ kind_of entry.now.rdata }
{
    entry.rdata.kind()
}

/// Whether a record's owner is the name.
#[tactic(auto, unfolding(crate::specs::Zone::is_at))]
pub fn is_at(entry: &Record, name: &Name) -> bool
    ensures { result ≡ is_at name.now entry.now }
{
    entry.owner.same(name)
}

/// Whether a record's owner is the name, and its type the one that is asked for.
#[tactic(auto, unfolding(crate::specs::Zone::is_of))]
pub fn is_of(entry: &Record, name: &Name, kind: u16) -> bool
    ensures { result ≡ is_of name.now kind entry.now }
{
    entry.rdata.kind() == kind && entry.owner.same(name)
}
