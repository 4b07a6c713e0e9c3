//! Patterns: `find PATTERN TEXT`, `patterntext PATTERN`.

use crate::case::Case;
use case_fields::{CaseFault, put_bytes, put_number, put_word, read_text};
use outside::{Made, PatternMaker, RegexMaker};
use pattern::{Pattern, Scratch};
use std::alloc::Global;

/// Where a pattern and its first three groups stand in a text, `none`, or for what is no pattern
/// `bad` or `large`.
pub fn find(alloc: Global, case: &Case<'_>, out: &mut String) -> Result<(), CaseFault> {
    let (pattern, text) = case.arguments()?;
    match made(alloc, pattern)? {
        Made::Pattern(pattern) => put_found(alloc, out, &pattern, text),
        Made::NotPattern => put_word(out, "bad"),
        Made::Refused => put_word(out, "large"),
        Made::NoMemory => Err(CaseFault::NoMemory),
    }
}

/// How a pattern prints, or `bad`.
pub fn print(alloc: Global, case: &Case<'_>, out: &mut String) -> Result<(), CaseFault> {
    match made(alloc, case.argument()?)? {
        Made::Pattern(pattern) => put_printed(alloc, out, &pattern),
        _ => put_word(out, "bad"),
    }
}

// What a maker makes of the pattern of a field.
fn made(alloc: Global, field: &str) -> Result<Made, CaseFault> {
    let text = read_text(alloc, field)?;
    Ok(RegexMaker::new().make(alloc, &text))
}

fn put_printed(alloc: Global, out: &mut String, pattern: &Pattern) -> Result<(), CaseFault> {
    let printed = format!(in alloc; "{pattern:?}")?;
    put_bytes(alloc, out, printed.as_str().as_bytes())
}

fn put_found(
    alloc: Global,
    out: &mut String,
    pattern: &Pattern,
    field: &str,
) -> Result<(), CaseFault> {
    let text = read_text(alloc, field)?;
    let mut scratch = Scratch::new(alloc);
    if pattern.find(&mut scratch, text.as_str(), true)?.is_none() {
        return put_word(out, "none");
    }
    put_groups(out, &scratch)
}

fn put_groups(out: &mut String, scratch: &Scratch) -> Result<(), CaseFault> {
    for number in 0..4 {
        if number != 0 {
            put_word(out, " ")?;
        }
        put_group(out, scratch.group(number))?;
    }
    Ok(())
}

// Where a group begins and ends, or `-`.
fn put_group(out: &mut String, group: Option<(usize, usize)>) -> Result<(), CaseFault> {
    let Some((start, end)) = group else {
        return put_word(out, "-");
    };
    put_number(out, start as u64)?;
    put_word(out, "-")?;
    put_number(out, end as u64)
}
