ghost use Rattle.std.specs.Prelude.{◌≡◌, ◌<◌, ◌^◌, length, Ok, IfOk, IfSome};
ghost use Rattle.std.specs.Arc.{arc_value};
ghost use Rattle.file_plugin.specs.Reading.{AreRead, ReadsOne, ReadsText, ReadsZones, told_at};
ghost use Rattle.file_plugin.specs.Zones.{read_from};

use crate::fault::FileFault;
use crate::plan::FilePlan;
use crate::served::ServedZone;
use dns_data::{Limit, Name, Names, NoMemory, Seq, limit};
use plugin_api::DirectiveFault;
use std::alloc::Global;
use std::sync::Arc;
use zone_file::{ZoneFault, ZoneText};

/// The zones of these origins, each read from the text in turn, or the first refusal at the line of
/// the directive. What one of these plans has read from the same text is taken over. In the others
/// names go on that a zone doesn't have.
pub(crate) fn read_text(
    alloc: Global,
    line: u32,
    last: &[&FilePlan],
    text: &[u8],
    origins: &[Name],
    fallthrough: &Arc<Names>,
) -> Result<Seq<ServedZone>, FileFault>
    requires { length text.now < 2 ^ 32 }
    ensures { ReadsText line text.now origins.now (arc_value fallthrough.now) result }
{
    match zones_from(alloc, last, text, origins, fallthrough) {
        Ok(zones) => Ok(zones),
        Err(fault) => Err(told_at(line, fault)),
    }
}

// No word of the text is read where all zones are taken over.
fn zones_from(
    alloc: Global,
    last: &[&FilePlan],
    text: &[u8],
    origins: &[Name],
    fallthrough: &Arc<Names>,
) -> Result<Seq<ServedZone>, ZoneFault>
    requires { length text.now < 2 ^ 32 }
    ensures { ReadsZones text.now origins.now (arc_value fallthrough.now) result }
{
    if let Some(zones) = take_all(alloc, last, text, origins, fallthrough)? {
        return Ok(zones);
    }
    let words = ZoneText::read(alloc, text)?;
    let mut zones = Seq::new(alloc);
    let mut rest = origins;
    while let Some((origin, behind)) = rest.split_first() {
        zones.push(zone_from(alloc, last, text, &words, origin, fallthrough)?)?;
        rest = behind;
    }
    Ok(zones)
}

// The zone of an origin in a text with these words, which may be taken over.
fn zone_from(
    alloc: Global,
    last: &[&FilePlan],
    text: &[u8],
    words: &ZoneText<'_>,
    origin: &Name,
    fallthrough: &Arc<Names>,
) -> Result<ServedZone, ZoneFault>
    requires { words.now ≡ text.now }
    ensures { ReadsOne text.now origin.now (arc_value fallthrough.now) result }
{
    match last_zone(last, origin, text) {
        Some(found) => Ok(found.again(alloc, fallthrough)?),
        None => {
            let zone = words.zone(alloc, origin)?;
            Ok(ServedZone::new(alloc, zone, fallthrough)?)
        }
    }
}

// The zones of these origins, where all of them are taken over.
fn take_all(
    alloc: Global,
    last: &[&FilePlan],
    text: &[u8],
    origins: &[Name],
    fallthrough: &Arc<Names>,
) -> Result<Option<Seq<ServedZone>>, NoMemory>
    ensures { IfOk result (λ taken. IfSome taken
        (AreRead text.now origins.now (arc_value fallthrough.now))) }
{
    let mut zones = Seq::new(alloc);
    let mut rest = origins;
    while let Some((origin, others)) = rest.split_first() {
        let Some(found) = last_zone(last, origin, text) else {
            return Ok(None);
        };
        zones.push(found.again(alloc, fallthrough)?)?;
        rest = others;
    }
    Ok(Some(zones))
}

// The zone of this origin that one of these plans has read from the same text.
fn last_zone<'a>(last: &[&'a FilePlan], origin: &Name, text: &[u8]) -> Option<&'a ServedZone>
    ensures { IfSome result (λ found. read_from text.now origin.now ≡ Ok found.now.zone) }
{
    for plan in last {
        if let Some(found) = plan.zone_in(origin, text) {
            return Some(found);
        }
    }
    None
}

fn told_at(line: u32, fault: ZoneFault) -> FileFault
    ensures { result ≡ told_at line fault }
{
    match fault {
        ZoneFault::Bad { line: at, why } => FileFault::Zone { line, at, why },
        ZoneFault::TooMany => FileFault::Directive(DirectiveFault::TooMany {
            what: Limit::ZoneRecords,
            number: limit::ZONE_RECORDS as u64 + 1,
        }),
        ZoneFault::NoMemory => FileFault::Directive(DirectiveFault::NoMemory),
    }
}
