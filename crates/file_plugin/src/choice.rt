ghost use Rattle.std.specs.Prelude.{◌≡◌, None, option_map, IfOk};
ghost use Rattle.std.specs.List.{flat_map};
ghost use Rattle.dns_data.specs.Message.{no_answer};
ghost use Rattle.file_plugin.specs.Choosing.{Picks};
ghost use Rattle.file_plugin.specs.Zones.{Says, file_say, longer_for, longer_of, longest};
ghost use Rattle.file_plugin.specs.Zones.{longest_of, served_of};

use crate::plan::FilePlan;
use crate::served::ServedZone;
use dns_data::{Name, NoMemory, Query, Slot};
use dns_write::Tail;
use std::alloc::Global;
use zone_lookup::answer;

/// What `file` says of a query: it is answered by what stands in the slot, or by that with the
/// records of a tail in place of its authority and additional; or it goes on.
#[derive(Clone, Copy, Debug)]
pub enum FileSay<'a> {
    Reply,
    Lent(&'a Tail),
    Next,
}

/// What the plans of a block say of a query: the zone with the longest origin that has the name
/// fills the slot with its answer, and may lend the two sections behind it instead. Where none has,
/// the query goes on, and so it does where that zone doesn't have the name and the `fallthrough` of
/// its directive covers it.
#[tactic(auto, unfolding(crate::specs::Zones::file_say))]
pub fn decide<'a>(
    alloc: Global,
    plans: &'a [FilePlan],
    query: &Query,
    slot: &mut Slot,
) -> Result<FileSay<'a>, NoMemory>
    requires clear { slot.old ≡ no_answer }
    ensures { IfOk result (λ say. Says say (file_say plans.now query.now) slot.new) }
{
    let Some(zone) = zone_for(plans, &query.name) else {
        return Ok(FileSay::Next);
    };
    let tail = answer(alloc, zone.tree(), &query.name, query.kind, slot)?;
    if !zone.goes_on(&query.name, slot) {
        return match tail {
            Some(tail) => Ok(FileSay::Lent(tail)),
            None => Ok(FileSay::Reply),
        };
    }
    slot.clear();
    Ok(FileSay::Next)
}

/// The zone with the longest origin that has the name, over all zones of these plans.
pub fn zone_for<'a>(plans: &'a [FilePlan], name: &Name) -> Option<&'a ServedZone>
    ensures value { option_map (λ zone. zone.now) result ≡ longest_of name.now None plans.now }
    ensures picks { Picks name.now (flat_map served_of plans.now)
        (option_map (λ zone. zone.now) result) }
{
    let mut best = None;
    for plan in plans {
        best = longest(plan.zones(), name, best);
    }
    best
}

// The same of one that stands before and of these zones.
fn longest<'a>(
    zones: &'a [ServedZone],
    name: &Name,
    before: Option<&'a ServedZone>,
) -> Option<&'a ServedZone>
    ensures { option_map (λ zone. zone.now) result
        ≡ longest name.now (option_map (λ zone. zone.now) before.entry) zones.now }
{
    let mut best = before;
    for zone in zones {
        best = longer_for(name, best, zone);
    }
    best
}

// The zone with the longer origin, where the name is within it.
fn longer_for<'a>(
    name: &Name,
    before: Option<&'a ServedZone>,
    zone: &'a ServedZone,
) -> Option<&'a ServedZone>
    ensures { option_map (λ zone. zone.now) result
        ≡ longer_for name.now (option_map (λ zone. zone.now) before.entry) zone.now }
{
    if name.is_within(zone.origin()) {
        return Some(longer_of(before, zone));
    }
    before
}

fn longer_of<'a>(before: Option<&'a ServedZone>, zone: &'a ServedZone) -> &'a ServedZone
    ensures { result.now ≡ longer_of (option_map (λ zone. zone.now) before.entry) zone.now }
{
    let Some(before) = before else {
        return zone;
    };
    if before.origin().label_count() < zone.origin().label_count() {
        return zone;
    }
    before
}
