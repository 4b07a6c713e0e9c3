ghost use Rattle.std.specs.Prelude.{◌≡◌, ◌≤◌, ◌+◌, ℕ, List, length, IfSome, IfNone, IfOk};
ghost use Rattle.std.specs.List.{AllByRecursion};
ghost use Rattle.dns_data.specs.Record.{IsCharacterString, strings_length};
ghost use Rattle.dns_wire.specs.Data.{CharacterStringAt, CharacterStringsAt};
ghost use Rattle.dns_wire.specs.Reads.{Reads};

use crate::WireFault;
use dns_data::{Bytes, Seq, Strings};
use std::alloc::Global;

/// Reads character-strings up to the end (RFC 1035, section 3.3.14).
pub fn read_strings(
    alloc: Global,
    bytes: &[u8],
    start: usize,
    behind: usize,
) -> Result<Strings, WireFault>
    requires inside { behind ≤ length bytes.now }
    requires order { start ≤ behind }
    ensures spelt { Reads (λ strings. CharacterStringsAt bytes.now start strings behind) result }
    ensures each { IfOk result (AllByRecursion IsCharacterString) }
    ensures size { IfOk result (λ strings. strings_length strings + start ≡ behind) }
{
    let mut strings: Strings = Seq::new(alloc);
    let mut at = start;
    while at < behind {
        let Some(text) = string_at(bytes, at, behind) else {
            return Err(WireFault::Bad);
        };
        strings.push(Bytes::from_slice(alloc, text)?)?;
        at = at + 1 + text.len();
    }
    Ok(strings)
}

/// The character-string that stands at an offset and ends before another, or there (RFC 1035,
/// section 3.3).
pub fn string_at(bytes: &[u8], at: usize, most: usize) -> Option<&[u8]>
    requires inside { most ≤ length bytes.now }
    requires order { at ≤ most }
    ensures found { IfSome result
        (λ text. CharacterStringAt bytes.now at text.now (at + 1 + length text.now)) }
    ensures inside { IfSome result (λ text. at + 1 + length text.now ≤ most) }
    ensures short { IfSome result (λ text. IsCharacterString text.now) }
    ensures none { IfNone result ((text : List ℕ) (behind : ℕ)
        → CharacterStringAt bytes.now at text behind → behind ≤ most → ⊥) }
{
    if at == most {
        return None;
    }
    let size = bytes[at] as usize;
    if most - at - 1 < size {
        return None;
    }
    Some(&bytes[at + 1..at + 1 + size])
}
