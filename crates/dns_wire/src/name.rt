ghost use Rattle.std.specs.Prelude.{◌≤◌, ◌<◌, ◌+◌, ℕ, List, length};
ghost use Rattle.std.specs.Prelude.{IfOk};
ghost use Rattle.dns_wire.specs.Wire.{WholeNameAt};
ghost use Rattle.dns_wire.specs.Known.{AreKnown};
ghost use Rattle.dns_wire.specs.Reads.{Reads, read_as};

use crate::WireFault;
use crate::known::KnownNames;
use crate::learning::{POINTERS_APART, learn};
use crate::sequence::{end_of_labels, joined, target_at};
use dns_data::Name;
use dns_data::limit::NAME_BYTES;
use std::alloc::Global;

/// Reads the first name of a message, in place of another, and gives the offset behind it. No
/// pointer ends it, since no name begins within the header.
#[inline(always)]
pub fn read_first_name(bytes: &[u8], first: usize, name: &mut Name) -> Result<usize, WireFault>
    requires first { first ≤ 12 }
    requires inside { first ≤ length bytes.now }
    ensures spelt { Reads
        (λ (found : List (List ℕ) × ℕ). WholeNameAt bytes.now first found.0 found.1)
        (read_as (λ (behind : ℕ). (name.new, behind)) result) }
    ensures inside { IfOk result (λ behind. behind ≤ length bytes.now) }
{
    let Some(end) = end_of_labels(bytes, first) else {
        return Err(WireFault::Bad);
    };
    if bytes[end] != 0 {
        return Err(WireFault::Bad);
    }
    name.set_wire(&bytes[first..end])?;
    Ok(end + 1)
}

/// Reads the name at an offset, and gives the offset behind it. Most names are one sequence of
/// labels, which is copied at once.
#[inline(always)]
pub fn read_name(
    alloc: Global,
    bytes: &[u8],
    known: &mut KnownNames,
    first: usize,
) -> Result<(Name, usize), WireFault>
    requires inside { first ≤ length bytes.now }
    requires known { AreKnown bytes.now known.old }
    ensures spelt { Reads (λ found. WholeNameAt bytes.now first found.0 found.1) result }
    ensures inside { IfOk result (λ found. found.1 ≤ length bytes.now) }
    ensures known { AreKnown bytes.now known.new }
{
    let Some(end) = end_of_labels(bytes, first) else {
        return Err(WireFault::Bad);
    };
    if bytes[end] != 0 {
        return read_sequences(alloc, bytes, known, first);
    }
    let name = Name::of_wire(alloc, &bytes[first..end])?;
    Ok((name, end + 1))
}

// Reads the name at an offset through its pointers. Each sequence of labels is copied at once, and
// so is the name that is known to stand at a target. Before the walk gets long, what is ahead is
// learnt. Stays a call, so that what reads a name without pointers is small.
#[inline(never)]
fn read_sequences(
    alloc: Global,
    bytes: &[u8],
    known: &mut KnownNames,
    first: usize,
) -> Result<(Name, usize), WireFault>
    requires inside { first ≤ length bytes.now }
    requires known { AreKnown bytes.now known.old }
    ensures spelt { Reads (λ found. WholeNameAt bytes.now first found.0 found.1) result }
    ensures inside { IfOk result (λ found. found.1 ≤ length bytes.now) }
    ensures known { AreKnown bytes.now known.new }
{
    let mut name = Name::root(alloc);
    let mut start = first;
    let mut behind = None;
    // How many pointers are left up to the one at which names are learnt, which is done once.
    let mut left = POINTERS_APART + 1;
    loop {
        let Some(end) = end_of_labels(bytes, start) else {
            return Err(WireFault::Bad);
        };
        if NAME_BYTES < name.wire_len() + (end - start) {
            return Err(WireFault::Bad);
        }
        name.append(&bytes[start..end])?;
        if bytes[end] == 0 {
            let _ = name.wire_len();
            return Ok((name, behind.unwrap_or(end + 1)));
        }
        let Some(target) = target_at(bytes, end, start) else {
            return Err(WireFault::Bad);
        };
        let after = behind.unwrap_or(end + 2);
        if let Some(rest) = known.find(target) {
            return Ok((joined(name, rest)?, after));
        }
        if left == 1 {
            learn(alloc, bytes, known, target)?;
        }
        if 0 < left {
            left -= 1;
        }
        behind = Some(after);
        start = target;
    }
}
