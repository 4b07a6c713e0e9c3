//! Whether an order of a part's calls is a history of it.
ghost use Rattle.std.specs.Prelude.{◌≡◌, IfOk, MatchOption, ℕ, List};
ghost use Rattle.outside.specs.declared.mark.Mark.TheVariants.{RecvEnd};
ghost use Rattle.one_history.specs.Calls.{Told};
ghost use Rattle.audit_run.specs.Following.{EmptyRows, IsFollowed, StandsSo};
ghost use Rattle.audit_run.specs.Orders.{Comes};
ghost use Rattle.audit_run.specs.Parts.{part_marks};
ghost use Rattle.audit_run.specs.Told.{allows_told, mark_in};

use crate::history::History;
use crate::rows::{Row, rows_of, take_place};
use crate::{Place, SharedCalls, SharedPart, SideRecord};
use dns_data::NoMemory;
use outside::Mark;
use std::alloc::Global;

/// Follows an order of a part's calls, and gives the first place that has a fault.
pub(crate) fn follow(
    alloc: Global,
    sides: &[SideRecord],
    calls: &[SharedCalls],
    part: &SharedPart,
    places: &[Place],
) -> Result<Option<usize>, NoMemory>
    ensures { IfOk result (λ fault. Comes (part_marks part.now calls.now)
        (allows_told part.now.rule sides.now) places.now fault) }
{
    let mut rows = rows_of(alloc, calls, part)?;
    let mut history = History::new(alloc, part.rule)?;
    for (at, place) in places.iter().enumerate() {
        if !stands(alloc, &mut rows, &mut history, sides, place)? {
            return Ok(Some(at));
        }
    }
    if are_empty(&rows) {
        return Ok(None);
    }
    Ok(Some(places.len()))
}

// Takes the call of a place, where its mark is the next one of its side and serial, and may stand
// behind those before it.
fn stands<'a>(
    alloc: Global,
    rows: &mut Vec<Row>,
    history: &mut History<'a>,
    sides: &'a [SideRecord],
    place: &Place,
) -> Result<bool, NoMemory>
    ensures { IfOk result (λ stands. (marks : ℕ → ℕ → List ℕ) (rule : _) (told : List (Told ℕ))
        → IsFollowed marks rule sides.now rows.old.items history.old told
        → StandsSo marks rule sides.now told place.now stands rows.new.items history.new) }
{
    let Some(_serial) = take_place(rows, place) else {
        return Ok(false);
    };
    let Some(mark) = mark_at(sides, place) else {
        return Ok(true);
    };
    let taken = history.take(alloc, mark)?;
    Ok(taken)
}

fn mark_at<'a>(sides: &'a [SideRecord], place: &Place) -> Option<&'a Mark>
    ensures { MatchOption result (mark_in sides.now place.now.side place.now.mark ≡ RecvEnd)
        (λ mark. mark.now ≡ mark_in sides.now place.now.side place.now.mark) }
{
    let Some(side) = sides.get(place.side as usize) else {
        return None;
    };
    side.marks.as_slice().get(place.mark as usize)
}

/// Whether nothing is left.
pub(crate) fn are_empty(rows: &[Row]) -> bool
    ensures { EmptyRows rows.now result }
{
    for row in rows {
        if !row.is_empty() {
            return false;
        }
    }
    true
}
