//! Messages: `query BYTES`, `asked BYTES`, `reply BYTES`, `cut BYTES LIMIT`.
ghost use Rattle.std.specs.Prelude.{◌≤◌};

use crate::case::Case;
use case_fields::{CaseFault, put_bytes, put_number, put_word, read_bytes};
use dns_data::Message;
use dns_data::limit::{MESSAGE_BYTES, UDP_BYTES};
use dns_wire::{QueryFault, WireFault, read_asked, read_query, read_reply};
use dns_write::write_message;
use std::alloc::Global;

/// What a query is refused for, or `ok` and its message, spelt anew.
pub fn query(alloc: Global, case: &Case<'_>, out: &mut String) -> Result<(), CaseFault> {
    let bytes = read_bytes(alloc, case.argument()?)?;
    match read_query(alloc, &bytes) {
        Ok(message) => put_spelt(alloc, out, &message),
        Err(fault) => put_refused(out, fault),
    }
}

/// What a query is refused for, or `ok`: read as a server reads it, whose records it doesn't keep.
pub fn asked(alloc: Global, case: &Case<'_>, out: &mut String) -> Result<(), CaseFault> {
    let bytes = read_bytes(alloc, case.argument()?)?;
    match read_asked(alloc, &bytes) {
        Ok(_) => put_word(out, "ok"),
        Err(fault) => put_refused(out, fault),
    }
}

fn put_refused(out: &mut String, fault: QueryFault) -> Result<(), CaseFault> {
    match fault {
        QueryFault::Short => put_word(out, "short"),
        QueryFault::Response => put_word(out, "response"),
        QueryFault::NotImp(head) => put_numbers(
            out,
            "notimp",
            &[head.id, u16::from(head.opcode), u16::from(head.rd)],
        ),
        QueryFault::FormErr(head) => put_numbers(out, "formerr", &[head.id, u16::from(head.rd)]),
        QueryFault::NoMemory => Err(CaseFault::NoMemory),
    }
}

fn put_numbers(out: &mut String, word: &str, numbers: &[u16]) -> Result<(), CaseFault> {
    put_word(out, word)?;
    for number in numbers {
        put_word(out, " ")?;
        put_number(out, u64::from(*number))?;
    }
    Ok(())
}

/// The message of a reply, spelt anew, or `bad`.
pub fn reply(alloc: Global, case: &Case<'_>, out: &mut String) -> Result<(), CaseFault> {
    let bytes = read_bytes(alloc, case.argument()?)?;
    match read_reply(alloc, &bytes) {
        Ok(message) => put_spelt(alloc, out, &message),
        Err(WireFault::Bad) => put_word(out, "bad"),
        Err(WireFault::NoMemory) => Err(CaseFault::NoMemory),
    }
}

/// The message of a reply, truncated at a limit.
pub fn truncated(alloc: Global, case: &Case<'_>, out: &mut String) -> Result<(), CaseFault> {
    let (bytes, limit) = case.arguments()?;
    let Ok(limit) = limit.parse::<u32>() else {
        return Err(CaseFault::Bad);
    };
    if limit < UDP_BYTES || MESSAGE_BYTES < limit {
        return Err(CaseFault::Bad);
    }
    match read_reply(alloc, &read_bytes(alloc, bytes)?) {
        Ok(message) => put_written(alloc, out, &message, limit),
        Err(WireFault::Bad) => Err(CaseFault::Bad),
        Err(WireFault::NoMemory) => Err(CaseFault::NoMemory),
    }
}

fn put_spelt(alloc: Global, out: &mut String, message: &Message) -> Result<(), CaseFault> {
    put_word(out, "ok ")?;
    put_written(alloc, out, message, MESSAGE_BYTES)
}

fn put_written(
    alloc: Global,
    out: &mut String,
    message: &Message,
    limit: u32,
) -> Result<(), CaseFault>
    requires { (UDP_BYTES ≤ limit) × (limit ≤ MESSAGE_BYTES) }
{
    let bytes = write_message(alloc, message, limit)?;
    put_bytes(alloc, out, bytes.as_slice())
}
