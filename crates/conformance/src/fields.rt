//! The fields of a case: bytes in hexadecimal, names in wire format, and addresses.

use case_fields::{CaseFault, put_bytes, put_number, put_word, read_bytes};
use dns_data::limit::{LABEL_BYTES, NAME_BYTES};
use dns_data::{Addr, Name};
use std::alloc::Global;

/// The name of a field in wire format, its zero byte included.
pub fn read_name(alloc: Global, field: &str) -> Result<Name, CaseFault> {
    let bytes = read_bytes(alloc, field)?;
    let mut name = Name::root(alloc);
    let mut rest = bytes.as_slice();
    while let Some((size, behind)) = rest.split_first() {
        let Some((label, behind)) = behind.split_at_checked(usize::from(*size)) else {
            return Err(CaseFault::Bad);
        };
        if label.is_empty() {
            return ended(name, behind);
        }
        push_label(&mut name, label)?;
        rest = behind;
    }
    Err(CaseFault::Bad)
}

// A name whose zero byte was read, where nothing stands behind it.
fn ended(name: Name, behind: &[u8]) -> Result<Name, CaseFault> {
    if behind.is_empty() {
        Ok(name)
    } else {
        Err(CaseFault::Bad)
    }
}

fn push_label(name: &mut Name, label: &[u8]) -> Result<(), CaseFault> {
    if label.is_empty() || LABEL_BYTES < label.len() {
        return Err(CaseFault::Bad);
    }
    if NAME_BYTES < name.wire_len() + label.len() + 1 {
        return Err(CaseFault::Bad);
    }
    Ok(name.push(label)?)
}

/// Adds the field of a name.
pub fn put_name(alloc: Global, out: &mut String, name: &Name) -> Result<(), CaseFault> {
    let wire = name.as_wire();
    if !wire.is_empty() {
        put_bytes(alloc, out, wire)?;
    }
    put_word(out, "00")
}

/// The address of two fields: 4 or 6, and its bytes.
pub fn read_addr(alloc: Global, family: &str, digits: &str) -> Result<Addr, CaseFault> {
    let bytes = read_bytes(alloc, digits)?;
    match family {
        "4" => addr_of(four_of(&bytes)),
        "6" => addr_of(sixteen_of(&bytes)),
        _ => Err(CaseFault::Bad),
    }
}

fn addr_of(read: Option<Addr>) -> Result<Addr, CaseFault> {
    match read {
        Some(addr) => Ok(addr),
        None => Err(CaseFault::Bad),
    }
}

fn four_of(bytes: &[u8]) -> Option<Addr> {
    match <[u8; 4]>::try_from(bytes) {
        Ok(bytes) => Some(Addr::V4(u32::from_be_bytes(bytes))),
        Err(_) => None,
    }
}

fn sixteen_of(bytes: &[u8]) -> Option<Addr> {
    match <[u8; 16]>::try_from(bytes) {
        Ok(bytes) => Some(Addr::V6(u128::from_be_bytes(bytes))),
        Err(_) => None,
    }
}

/// Adds the fields of an address.
pub fn put_addr(alloc: Global, out: &mut String, addr: Addr) -> Result<(), CaseFault> {
    match addr {
        Addr::V4(number) => put_family(alloc, out, "4 ", &number.to_be_bytes()),
        Addr::V6(number) => put_family(alloc, out, "6 ", &number.to_be_bytes()),
    }
}

fn put_family(alloc: Global, out: &mut String, word: &str, bytes: &[u8]) -> Result<(), CaseFault> {
    put_word(out, word)?;
    put_bytes(alloc, out, bytes)
}

/// Adds a number that is there, or `bad`.
pub fn put_number_or_bad(out: &mut String, number: Option<u64>) -> Result<(), CaseFault> {
    match number {
        Some(number) => put_number(out, number),
        None => put_word(out, "bad"),
    }
}

/// Adds whether something holds.
pub fn put_flag(out: &mut String, flag: bool) -> Result<(), CaseFault> {
    put_word(out, if flag { "1" } else { "0" })
}
