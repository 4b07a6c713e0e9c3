ghost use Rattle.std.specs.Prelude.{◌≡◌, IfOk};
ghost use Rattle.plugin_api.specs.Options.{every_zone, fallthrough_of, fallthrough_why};

use crate::DirectiveWhy;
use crate::options::option_in;
use dns_data::{Line, Name, Names, NoMemory, Seq, Text};
use std::alloc::Global;
use zone_words::read_zones;

/// The zones in which names go on for which there is no answer.
pub fn fallthrough_of(alloc: Global, lines: &[Line]) -> Result<Names, NoMemory>
    ensures { IfOk result (λ zones. zones ≡ fallthrough_of lines.now) }
{
    let Some(words) = option_in(lines, b"fallthrough") else {
        return Ok(Seq::new(alloc));
    };
    match read_zones(alloc, &every_zone(alloc)?, words)? {
        Some(zones) => Ok(zones),
        None => Ok(Seq::new(alloc)),
    }
}

/// Why the words behind `fallthrough` don't fit: zones, or none.
pub fn fallthrough_why(alloc: Global, words: &[Text]) -> Result<Option<DirectiveWhy>, NoMemory>
    ensures { IfOk result (λ why. why ≡ fallthrough_why words.now) }
{
    match read_zones(alloc, &every_zone(alloc)?, words)? {
        Some(_) => Ok(None),
        None => Ok(Some(DirectiveWhy::Zone)),
    }
}

// The root alone, in which every name is.
fn every_zone(alloc: Global) -> Result<Names, NoMemory>
    ensures { IfOk result (λ zones. zones ≡ every_zone) }
{
    let mut zones = Seq::new(alloc);
    zones.push(Name::root(alloc))?;
    Ok(zones)
}
