ghost use Rattle.std.specs.Prelude.{◌≡◌};
ghost use Rattle.zone_words.specs.Zones.{is_in};

use dns_data::Name;

/// Whether a name is within one of these zones, ASCII case aside.
pub fn is_in(name: &Name, zones: &[Name]) -> bool
    ensures { result ≡ is_in name.now zones.now }
{
    for zone in zones {
        if name.is_within(zone) {
            return true;
        }
    }
    false
}
