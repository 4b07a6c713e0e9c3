ghost use Rattle.std.specs.Prelude.{◌≡◌, IfOk};
ghost use Rattle.record_text.specs.Fields.{Answers};
ghost use Rattle.record_text.specs.Rows.{digits_in};
ghost use Rattle.record_text.specs.Strings.{hex_byte, hex_of};

use crate::{RecordFault, Word};
use dns_addr::hex_digit;
use dns_data::{Bytes, NoMemory};
use std::alloc::Global;

/// The bytes of hexadecimal digits, which may stand in several words.
pub(crate) fn read_hex(alloc: Global, words: &[Word<'_>]) -> Result<Bytes, RecordFault>
    ensures { Answers (hex_of (digits_in words.now)) result }
{
    let digits = joined(alloc, words)?;
    decoded(alloc, digits.as_slice())
}

// The bytes of words, one word behind the other.
fn joined(alloc: Global, words: &[Word<'_>]) -> Result<Bytes, NoMemory>
    ensures { IfOk result (λ digits. digits ≡ digits_in words.now) }
{
    let mut digits = Bytes::new(alloc);
    for word in words {
        digits.append(word.text)?;
    }
    Ok(digits)
}

fn decoded(alloc: Global, digits: &[u8]) -> Result<Bytes, RecordFault>
    ensures { Answers (hex_of digits.now) result }
{
    let mut bytes = Bytes::new(alloc);
    let mut rest = digits;
    while let Some((high, behind)) = rest.split_first() {
        let Some((low, others)) = behind.split_first() else {
            return Err(RecordFault::Bad);
        };
        let Some(byte) = hex_byte(*high, *low) else {
            return Err(RecordFault::Bad);
        };
        bytes.push(byte)?;
        rest = others;
    }
    Ok(bytes)
}

// The byte of two hexadecimal digits.
fn hex_byte(high: u8, low: u8) -> Option<u8>
    ensures { result ≡ hex_byte high low }
{
    Some(16 * hex_digit(high)? + hex_digit(low)?)
}
