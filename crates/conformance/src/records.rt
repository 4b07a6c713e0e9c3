//! Records, types and RCODEs: `record TEXT ORIGIN TTL`, `kind TEXT`, `kindtext TYPE`,
//! `rcodetext RCODE`.
ghost use Rattle.std.specs.Prelude.{◌<◌};

use crate::case::Case;
use crate::fields::{put_name, read_name};
use case_fields::{CaseFault, put_bytes, put_number, put_word, read_bytes};
use dns_data::limit::TTL_END;
use dns_data::{Name, Rdata, Record, Soa, Strings, Text};
use record_text::{RecordFault, read_record};
use std::alloc::Global;
use type_names::{kind_text, rcode_text, read_kind};

/// The record that a text spells, or `bad`.
pub fn read(alloc: Global, case: &Case<'_>, out: &mut String) -> Result<(), CaseFault> {
    let (text, origin, ttl) = case.three_arguments()?;
    let Ok(ttl) = ttl.parse::<u32>() else {
        return Err(CaseFault::Bad);
    };
    if TTL_END <= ttl {
        return Err(CaseFault::Bad);
    }
    match record_of(alloc, text, origin, ttl)? {
        Ok(read) => put_record(alloc, out, &read),
        Err(RecordFault::Bad) => put_word(out, "bad"),
        Err(RecordFault::NoMemory) => Err(CaseFault::NoMemory),
    }
}

// What reading the record of two fields gives.
fn record_of(
    alloc: Global,
    text: &str,
    origin: &str,
    ttl: u32,
) -> Result<Result<Record, RecordFault>, CaseFault>
    requires { ttl < TTL_END }
{
    let text = read_bytes(alloc, text)?;
    let origin = read_name(alloc, origin)?;
    Ok(read_record(alloc, &text, &origin, ttl))
}

/// The type that a text names, or `bad`.
pub fn read_type(alloc: Global, case: &Case<'_>, out: &mut String) -> Result<(), CaseFault> {
    match read_kind(&read_bytes(alloc, case.argument()?)?) {
        Some(kind) => put_number(out, u64::from(kind)),
        None => put_word(out, "bad"),
    }
}

/// The text of a type.
pub fn print_type(alloc: Global, case: &Case<'_>, out: &mut String) -> Result<(), CaseFault> {
    match case.argument()?.parse::<u16>() {
        Ok(kind) => put_text(alloc, out, &kind_text(alloc, kind)?),
        Err(_) => Err(CaseFault::Bad),
    }
}

/// The text of an RCODE.
pub fn print_rcode(alloc: Global, case: &Case<'_>, out: &mut String) -> Result<(), CaseFault> {
    match case.argument()?.parse::<u8>() {
        Ok(rcode) => put_text(alloc, out, &rcode_text(alloc, rcode)?),
        Err(_) => Err(CaseFault::Bad),
    }
}

fn put_text(alloc: Global, out: &mut String, text: &Text) -> Result<(), CaseFault> {
    put_bytes(alloc, out, text.as_str().as_bytes())
}

/// A record: its owner, type, class, TTL and data, with colons between them.
pub fn put_record(alloc: Global, out: &mut String, read: &Record) -> Result<(), CaseFault> {
    put_name(alloc, out, &read.owner)?;
    for number in [
        u32::from(read.rdata.kind()),
        u32::from(read.class),
        read.ttl,
    ] {
        put_word(out, ":")?;
        put_number(out, u64::from(number))?;
    }
    put_word(out, ":")?;
    put_rdata(alloc, out, &read.rdata)
}

// The data in wire format, with names whole.
fn put_rdata(alloc: Global, out: &mut String, data: &Rdata) -> Result<(), CaseFault> {
    let mut bytes = Vec::new(alloc);
    put_data(&mut bytes, data)?;
    put_bytes(alloc, out, &bytes)
}

fn put_data(bytes: &mut Vec<u8>, data: &Rdata) -> Result<(), CaseFault> {
    match data {
        Rdata::A(addr) => put(bytes, &addr.to_be_bytes()),
        Rdata::Aaaa(addr) => put(bytes, &addr.to_be_bytes()),
        Rdata::Ns(name) | Rdata::Cname(name) | Rdata::Ptr(name) => put_wire(bytes, name),
        Rdata::Soa(soa) => put_soa(bytes, soa),
        Rdata::Hinfo(cpu, os) => put_both(bytes, cpu.as_slice(), os.as_slice()),
        Rdata::Mx(preference, exchange) => put_host(bytes, &[*preference], exchange),
        Rdata::Txt(strings) => put_strings(bytes, strings),
        Rdata::Srv(priority, weight, port, target) => {
            put_host(bytes, &[*priority, *weight, *port], target)
        }
        Rdata::Caa(flags, tag, value) => {
            put_property(bytes, *flags, tag.as_slice(), value.as_slice())
        }
        Rdata::Opaque(_, text) => put(bytes, text.as_slice()),
    }
}

fn put(bytes: &mut Vec<u8>, more: &[u8]) -> Result<(), CaseFault> {
    Ok(bytes.extend_from_slice(more)?)
}

fn put_wire(bytes: &mut Vec<u8>, name: &Name) -> Result<(), CaseFault> {
    put(bytes, name.as_wire())?;
    put(bytes, &[0])
}

fn put_soa(bytes: &mut Vec<u8>, soa: &Soa) -> Result<(), CaseFault> {
    put_wire(bytes, &soa.mname)?;
    put_wire(bytes, &soa.rname)?;
    let numbers = [soa.serial, soa.refresh, soa.retry, soa.expire, soa.minimum];
    for number in numbers {
        put(bytes, &number.to_be_bytes())?;
    }
    Ok(())
}

// Numbers of two bytes each, and a name.
fn put_host(bytes: &mut Vec<u8>, numbers: &[u16], host: &Name) -> Result<(), CaseFault> {
    for number in numbers {
        put(bytes, &number.to_be_bytes())?;
    }
    put_wire(bytes, host)
}

fn put_property(bytes: &mut Vec<u8>, flags: u8, tag: &[u8], value: &[u8]) -> Result<(), CaseFault> {
    put(bytes, &[flags])?;
    put_string(bytes, tag)?;
    put(bytes, value)
}

fn put_both(bytes: &mut Vec<u8>, first: &[u8], second: &[u8]) -> Result<(), CaseFault> {
    put_string(bytes, first)?;
    put_string(bytes, second)
}

fn put_strings(bytes: &mut Vec<u8>, strings: &Strings) -> Result<(), CaseFault> {
    for string in strings.as_slice() {
        put_string(bytes, string.as_slice())?;
    }
    Ok(())
}

// A character-string behind its length. A longer text is no string.
fn put_string(bytes: &mut Vec<u8>, string: &[u8]) -> Result<(), CaseFault> {
    let Ok(size) = u8::try_from(string.len()) else {
        return Err(CaseFault::Bad);
    };
    put(bytes, &[size])?;
    put(bytes, string)
}
