//! Names ahead of a long walk through pointers, learnt from the lowest one upwards.
ghost use Rattle.std.specs.Prelude.{◌≤◌, ◌<◌, length, IfOk};
ghost use Rattle.dns_wire.specs.Known.{AreKnown, IsKnown};

use crate::WireFault;
use crate::known::KnownNames;
use crate::sequence::{end_of_labels, joined, target_at};
use dns_data::{Copies, Name, NoMemory};
use std::alloc::Global;

/// So many pointers are followed before names ahead are learnt, and so many targets lie between two
/// whose names are kept.
pub const POINTERS_APART: u8 = 4;

/// Keeps the name at an offset, and those of some offsets that it leads through, so that no walk
/// from there on is long. Where one of them is no name, the first isn't either, and its own reading
/// tells.
#[inline(never)]
pub fn learn(
    alloc: Global,
    bytes: &[u8],
    known: &mut KnownNames,
    first: usize,
) -> Result<(), NoMemory>
    requires inside { first ≤ length bytes.now }
    requires known { AreKnown bytes.now known.old }
    ensures known { AreKnown bytes.now known.new }
{
    let mut above = Vec::new(alloc);
    let mut start = first;
    while let Some(end) = end_of_labels(bytes, start) {
        let Some(target) = target_at(bytes, end, start) else {
            break;
        };
        above.push(start)?;
        start = target;
        if known.find(start).is_some() {
            break;
        }
    }
    if above.is_empty() {
        return Ok(());
    }
    match learn_upwards(alloc, bytes, known, above, start) {
        Err(WireFault::NoMemory) => Err(NoMemory),
        _ => Ok(()),
    }
}

// Makes the names of offsets, the last one first: each is the target of the one before it, and the
// last leads to the lowest. The name of the first is kept, and so is one of each few.
fn learn_upwards(
    alloc: Global,
    bytes: &[u8],
    known: &mut KnownNames,
    offsets: Vec<usize>,
    lowest: usize,
) -> Result<(), WireFault>
    requires inside { lowest ≤ length bytes.now }
    requires known { AreKnown bytes.now known.old }
    ensures known { AreKnown bytes.now known.new }
{
    let mut above = offsets;
    let mut name = lowest_name(alloc, bytes, known, lowest)?;
    let mut at = lowest;
    let mut left = POINTERS_APART;
    while let Some(start) = above.pop() {
        name = name_above(alloc, bytes, start, at, name)?;
        at = start;
        if 0 < left && !above.is_empty() {
            left -= 1;
        } else {
            known.add(bytes.len(), at, name.copy(alloc)?)?;
            left = POINTERS_APART;
        }
    }
    Ok(())
}

// The name at an offset, where it is known or no pointer ends it.
fn lowest_name(
    alloc: Global,
    bytes: &[u8],
    known: &KnownNames,
    at: usize,
) -> Result<Name, WireFault>
    requires inside { at ≤ length bytes.now }
    requires known { AreKnown bytes.now known.now }
    ensures { IfOk result (λ name. IsKnown bytes.now (at, name)) }
{
    if let Some(name) = known.find(at) {
        return Ok(name.copy(alloc)?);
    }
    let Some(end) = end_of_labels(bytes, at) else {
        return Err(WireFault::Bad);
    };
    if bytes[end] != 0 {
        return Err(WireFault::Bad);
    }
    Ok(Name::of_wire(alloc, &bytes[at..end])?)
}

// The name at an offset whose pointer leads to where a name is known.
#[inline]
fn name_above(
    alloc: Global,
    bytes: &[u8],
    start: usize,
    below: usize,
    name: Name,
) -> Result<Name, WireFault>
    requires here { IsKnown bytes.now (below, name) }
    ensures { IfOk result (λ whole. IsKnown bytes.now (start, whole)) }
{
    if bytes.len() < start {
        return Err(WireFault::Bad);
    }
    let Some(end) = end_of_labels(bytes, start) else {
        return Err(WireFault::Bad);
    };
    let Some(target) = target_at(bytes, end, start) else {
        return Err(WireFault::Bad);
    };
    if target != below {
        return Err(WireFault::Bad);
    }
    if start == end {
        let _ = name.wire_len();
        return Ok(name);
    }
    let front = Name::of_wire(alloc, &bytes[start..end])?;
    joined(front, &name)
}
