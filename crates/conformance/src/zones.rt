//! Zones: `zone TEXT ORIGIN`, `lookup TEXT ORIGIN NAME TYPE`.

use crate::case::Case;
use crate::fields::read_name;
use crate::records::put_record;
use case_fields::{CaseFault, put_bytes, put_number, put_word, read_bytes};
use chain_build::reply_message;
use dns_data::limit::MESSAGE_BYTES;
use dns_data::{Buffer, Query, Slot, Zone, class};
use dns_write::write_parts;
use std::alloc::Global;
use zone_file::{ZoneFault, ZoneWhy, read_zone};
use zone_lookup::lookup;
use zone_tree::TreeZone;

/// `ok` and the records of the zone that a text spells, or `fault`, the line and why.
pub fn read(alloc: Global, case: &Case<'_>, out: &mut String) -> Result<(), CaseFault> {
    let (text, origin) = case.arguments()?;
    match zone_of(alloc, text, origin)? {
        Ok(zone) => put_zone(alloc, out, &zone),
        Err(ZoneFault::Bad { line, why }) => put_fault(out, line, why),
        Err(ZoneFault::TooMany) => put_word(out, "toomany"),
        Err(ZoneFault::NoMemory) => Err(CaseFault::NoMemory),
    }
}

// What reading the zone of two fields gives.
fn zone_of(alloc: Global, text: &str, origin: &str) -> Result<Result<Zone, ZoneFault>, CaseFault> {
    let text = read_bytes(alloc, text)?;
    let origin = read_name(alloc, origin)?;
    if u32::MAX as usize <= text.len() {
        return Err(CaseFault::Bad);
    }
    Ok(read_zone(alloc, &text, &origin))
}

fn put_zone(alloc: Global, out: &mut String, zone: &Zone) -> Result<(), CaseFault> {
    put_word(out, "ok")?;
    for kept in zone.records.as_slice() {
        put_word(out, " ")?;
        put_record(alloc, out, kept)?;
    }
    Ok(())
}

fn put_fault(out: &mut String, line: u32, why: ZoneWhy) -> Result<(), CaseFault> {
    put_word(out, "fault ")?;
    put_number(out, u64::from(line))?;
    put_word(out, " ")?;
    put_word(out, why.text())
}

/// What the zone that a text spells answers, as a message with id 0.
pub fn answer(alloc: Global, case: &Case<'_>, out: &mut String) -> Result<(), CaseFault> {
    let (text, origin, name, kind) = case.four_arguments()?;
    let Ok(kind) = kind.parse::<u16>() else {
        return Err(CaseFault::Bad);
    };
    match zone_of(alloc, text, origin)? {
        Ok(zone) => put_answer(alloc, out, &TreeZone::new(alloc, zone)?, name, kind),
        Err(ZoneFault::NoMemory) => Err(CaseFault::NoMemory),
        Err(_) => Err(CaseFault::Bad),
    }
}

fn put_answer(
    alloc: Global,
    out: &mut String,
    tree: &TreeZone,
    name: &str,
    kind: u16,
) -> Result<(), CaseFault> {
    let mut query = Query::blank(alloc);
    query.name = read_name(alloc, name)?;
    query.kind = kind;
    put_reply(alloc, out, tree, &query)
}

// The message that answers a query.
fn put_reply(
    alloc: Global,
    out: &mut String,
    tree: &TreeZone,
    query: &Query,
) -> Result<(), CaseFault> {
    let mut slot = Slot::new(alloc);
    lookup(alloc, tree, &query.name, query.kind, &mut slot)?;
    let parts = reply_message(0, class::IN, None, query, &slot);
    let bytes = write_parts(alloc, Buffer::new(alloc), &parts, MESSAGE_BYTES)?;
    put_bytes(alloc, out, bytes.as_slice())
}
