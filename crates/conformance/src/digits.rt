//! Numbers: `number TEXT MOST`, `duration TEXT`.

use crate::case::Case;
use crate::fields::put_number_or_bad;
use case_fields::{CaseFault, read_bytes};
use numbers::{read_digits, read_duration};
use std::alloc::Global;

/// The number that a text of at most so many digits spells, or `bad`.
pub fn number(alloc: Global, case: &Case<'_>, out: &mut String) -> Result<(), CaseFault> {
    let (text, most) = case.arguments()?;
    let text = read_bytes(alloc, text)?;
    match most.parse::<u8>() {
        Ok(most) if most <= 18 => put_number_or_bad(out, read_digits(&text, usize::from(most))),
        _ => Err(CaseFault::Bad),
    }
}

/// The milliseconds of the duration that a text spells, or `bad`.
pub fn duration(alloc: Global, case: &Case<'_>, out: &mut String) -> Result<(), CaseFault> {
    let text = read_bytes(alloc, case.argument()?)?;
    put_number_or_bad(out, read_duration(&text))
}
