//! Sequences of labels, the pointers that end them, and names that are put together of them.
ghost use Rattle.std.specs.Prelude.{◌≡◌, ◌≤◌, ◌<◌, ◌++◌, ℕ, List, length, IfSome, IfNone};
ghost use Rattle.dns_names.specs.Name.{IsName};
ghost use Rattle.dns_wire.specs.Wire.{NameAt, PointerAt};
ghost use Rattle.dns_wire.specs.Sequences.{SequenceAt};
ghost use Rattle.dns_wire.specs.Reads.{Reads};

use crate::WireFault;
use dns_data::Name;
use dns_data::limit::{HEADER_BYTES, LABEL_BYTES, NAME_BYTES};

// The least byte whose upper two bits are set (RFC 1035, section 4.1.4).
const POINTER: u8 = 192;

/// The offset of the zero byte or the pointer that ends the sequence of labels at `start`, where
/// they are labels of a name.
#[inline]
pub fn end_of_labels(bytes: &[u8], start: usize) -> Option<usize>
    requires { start ≤ length bytes.now }
    ensures found { IfSome result (λ end. SequenceAt bytes.now start end) }
    ensures none { IfNone result ((name : List (List ℕ)) (behind : ℕ)
        → IsName name → NameAt bytes.now start start name behind → ⊥) }
{
    // The byte that ends the sequence stands before this offset.
    let limit = start + (bytes.len() - start).min(NAME_BYTES);
    let mut at = start;
    while at < limit {
        let size = bytes[at];
        if size == 0 || POINTER <= size {
            return Some(at);
        }
        if LABEL_BYTES < size as usize {
            return None;
        }
        at += 1 + size as usize;
    }
    None
}

/// The target of the pointer that stands at an offset and ends the sequence from `start` on, where
/// one does: behind the header, where no name begins, and before the sequence.
#[inline]
pub fn target_at(bytes: &[u8], at: usize, start: usize) -> Option<usize>
    requires { at < length bytes.now }
    ensures found { IfSome result (λ target. PointerAt bytes.now at target) }
    ensures low { IfSome result (λ target. 12 ≤ target) }
    ensures less { IfSome result (λ target. target < start) }
    ensures none { IfNone result ((target : ℕ)
        → PointerAt bytes.now at target → 12 ≤ target → target < start → ⊥) }
{
    if bytes[at] < POINTER || bytes.len() - at < 2 {
        return None;
    }
    let target = 256 * (bytes[at] - POINTER) as usize + bytes[at + 1] as usize;
    if target < HEADER_BYTES {
        return None;
    }
    if start <= target {
        return None;
    }
    Some(target)
}

/// A name behind the labels of another.
pub fn joined(front: Name, rest: &Name) -> Result<Name, WireFault>
    ensures { Reads (λ whole. (whole ≡ front ++ rest.now) × IsName whole) result }
{
    let mut name = front;
    if NAME_BYTES + 1 < name.wire_len() + rest.wire_len() {
        return Err(WireFault::Bad);
    }
    name.append(rest.as_wire())?;
    let _ = name.wire_len();
    Ok(name)
}
