//! Names: `name TEXT ORIGIN`, `nametext NAME`, `lower NAME`, `same NAME NAME`, `within NAME ZONE`,
//! `reverse 4|6 ADDRESS`, `reversed NAME`, `zoneword TEXT`.

use crate::case::Case;
use crate::fields::{put_addr, put_flag, put_name, read_addr, read_name};
use case_fields::{CaseFault, put_bytes, put_word, read_bytes};
use dns_data::{Name, NameFault};
use std::alloc::Global;
use zone_words::read_zone;

/// The name that a text spells below an origin, or `bad`.
pub fn read(alloc: Global, case: &Case<'_>, out: &mut String) -> Result<(), CaseFault> {
    let (text, origin) = case.arguments()?;
    let text = read_bytes(alloc, text)?;
    let origin = read_name(alloc, origin)?;
    match Name::read(alloc, &text, &origin) {
        Ok(name) => put_name(alloc, out, &name),
        Err(NameFault::Bad) => put_word(out, "bad"),
        Err(NameFault::NoMemory) => Err(CaseFault::NoMemory),
    }
}

/// The text of a name.
pub fn print(alloc: Global, case: &Case<'_>, out: &mut String) -> Result<(), CaseFault> {
    let name = read_name(alloc, case.argument()?)?;
    put_bytes(alloc, out, name.text(alloc)?.as_str().as_bytes())
}

/// The name in small letters.
pub fn lower(alloc: Global, case: &Case<'_>, out: &mut String) -> Result<(), CaseFault> {
    let name = read_name(alloc, case.argument()?)?;
    put_name(alloc, out, &name.lower(alloc)?)
}

/// Whether two names are the same, ASCII case aside, and whether they are equal letter for letter.
pub fn same(alloc: Global, case: &Case<'_>, out: &mut String) -> Result<(), CaseFault> {
    let (name, other) = case.arguments()?;
    let name = read_name(alloc, name)?;
    let other = read_name(alloc, other)?;
    put_flag(out, name.same(&other))?;
    put_word(out, " ")?;
    put_flag(out, name.equals(&other))
}

/// Whether a name is within a zone.
pub fn within(alloc: Global, case: &Case<'_>, out: &mut String) -> Result<(), CaseFault> {
    let (name, zone) = case.arguments()?;
    let name = read_name(alloc, name)?;
    put_flag(out, name.is_within(&read_name(alloc, zone)?))
}

/// The name that stands for an address.
pub fn reverse(alloc: Global, case: &Case<'_>, out: &mut String) -> Result<(), CaseFault> {
    let (family, digits) = case.arguments()?;
    let addr = read_addr(alloc, family, digits)?;
    put_name(alloc, out, &Name::reverse(alloc, &addr)?)
}

/// The address that a name stands for, or `none`.
pub fn reversed(alloc: Global, case: &Case<'_>, out: &mut String) -> Result<(), CaseFault> {
    let name = read_name(alloc, case.argument()?)?;
    match name.reversed_addr() {
        Some(addr) => put_addr(alloc, out, addr),
        None => put_word(out, "none"),
    }
}

/// The zone that a word of a Corefile names, or `none`.
pub fn zone(alloc: Global, case: &Case<'_>, out: &mut String) -> Result<(), CaseFault> {
    let word = read_bytes(alloc, case.argument()?)?;
    match read_zone(alloc, &word)? {
        Some(zone) => put_name(alloc, out, &zone),
        None => put_word(out, "none"),
    }
}
