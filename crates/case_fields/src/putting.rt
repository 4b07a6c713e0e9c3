//! Answers, put together word by word.
ghost use Rattle.std.specs.Prelude.{◌≡◌, ◌++◌, OnOk, string_bytes};
ghost use Rattle.std.specs.Fmt.{decimal};
ghost use Rattle.case_fields.specs.Fields.{field_of};

use crate::fault::CaseFault;
use crate::fields::bytes_field;
use std::alloc::Global;
use std::fmt::Write;

/// Adds a word as it stands.
pub fn put_word(out: &mut String, word: &str) -> Result<(), CaseFault>
    ensures { OnOk result (string_bytes out.new ≡ string_bytes out.old ++ word.now) }
{
    Ok(out.push_str(word)?)
}

/// Adds a number in decimal digits.
pub fn put_number(out: &mut String, number: u64) -> Result<(), CaseFault>
    ensures { OnOk result (string_bytes out.new ≡ string_bytes out.old ++ decimal number) }
{
    match write!(out, "{number}") {
        Ok(()) => Ok(()),
        Err(_) => Err(CaseFault::NoMemory),
    }
}

/// Adds the field of bytes.
pub fn put_bytes(alloc: Global, out: &mut String, bytes: &[u8]) -> Result<(), CaseFault>
    ensures { OnOk result (string_bytes out.new ≡ string_bytes out.old ++ field_of bytes.now) }
{
    let field = bytes_field(alloc, bytes)?;
    Ok(out.push_str(field.as_str())?)
}
