ghost use Rattle.std.specs.Prelude.{◌≡◌, ◌++◌, IsTrue, IfOk, IfSome};
ghost use Rattle.std.specs.List.{AllByRecursion};
ghost use Rattle.dns_data.specs.Record.{IsProper};
ghost use Rattle.dns_write.specs.Tails.{EndsIn, IsInside, IsPlanned};

use crate::layout::{Layout, Spot};
use crate::listing::list_records;
use dns_data::{Bytes, Copies, Name, NoMemory, Record, Seq, are_equal};
use std::alloc::Global;

/// How records are written behind an answer to a question whose name ends in the anchor: their
/// text, with two zeros where each pointer stands, the pointers, and the labels of their names.
#[derive(Debug, Drop)]
pub struct Plan {
    pub anchor: Name,
    pub depth: usize,
    pub labels: Seq<Bytes>,
    pub text: Vec<u8>,
    pub spots: Vec<Spot>,
}

/// The plan of records of two sections, where all their types are A, NS, SOA or AAAA.
pub fn plan_of(
    alloc: Global,
    anchor: &Name,
    authority: &[Record],
    additional: &[Record],
) -> Result<Option<Plan>, NoMemory>
    ensures { IfOk result (λ plan. IsPlanned (authority.now ++ additional.now) plan) }
{
    let mut layout = Layout::behind(alloc, anchor)?;
    if !layout.add_records(authority)? {
        return Ok(None);
    }
    if !layout.add_records(additional)? {
        return Ok(None);
    }
    let mut labels = Seq::new(alloc);
    if !list_records(alloc, &mut labels, authority)? {
        return Ok(None);
    }
    if !list_records(alloc, &mut labels, additional)? {
        return Ok(None);
    }
    let (text, spots) = layout.into_parts();
    if !are_inside(&spots, text.len()) {
        return Ok(None);
    }
    are_proper(authority);
    are_proper(additional);
    Ok(Some(Plan {
        anchor: anchor.copy(alloc)?,
        depth: anchor.label_count(),
        labels,
        text,
        spots,
    }))
}

// Whether all spots stand in a text of so many bytes, and none leads far.
fn are_inside(spots: &[Spot], size: usize) -> bool
    ensures { IsTrue result → AllByRecursion (IsInside size) spots.now }
{
    for spot in spots {
        if !is_inside(spot, size) {
            return false;
        }
    }
    true
}

// Whether a spot stands in a text of so many bytes, and doesn't lead far.
fn is_inside(spot: &Spot, size: usize) -> bool
    ensures { IsTrue result → IsInside size spot.now }
{
    if size < 2 || size - 2 < spot.at {
        return false;
    }
    spot.behind <= 255 || spot.behind - 255 <= size
}

// Each record is what its type promises.
fn are_proper(records: &[Record])
    ensures { AllByRecursion IsProper records.now }
{
    for entry in records {
        is_proper(entry);
    }
}

// A record is what its type promises.
fn is_proper(entry: &Record)
    ensures { IsProper entry.now }
{
    let _ = &entry.owner;
}

/// The label above an anchor in which a name ends, letter for letter, and how many labels stand
/// above the anchor: where the name is the anchor, no bytes and 0.
#[inline]
pub fn label_above<'a>(name: &'a Name, anchor: &Name) -> Option<(&'a [u8], usize)>
    ensures { IfSome result (λ found. EndsIn name.now anchor.now found.0.now found.1) }
{
    let end = anchor.as_wire();
    let mut labels = name.labels();
    let mut rest = name.as_wire();
    let mut above = &rest[..0];
    let mut count = 0;
    while end.len() < rest.len() {
        let Some(label) = labels.next() else {
            return None;
        };
        above = label;
        count += 1;
        rest = labels.as_wire();
    }
    if !are_equal(rest, end) {
        return None;
    }
    Some((above, count))
}
