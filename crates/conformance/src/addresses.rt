//! Addresses: `addr TEXT`, `addrtext 4|6 ADDRESS`, `net TEXT`, `holds NET ADDRESS`.

use crate::case::Case;
use crate::fields::{put_addr, put_flag, read_addr};
use case_fields::{CaseFault, put_bytes, put_number, put_word, read_bytes};
use dns_data::{Addr, Net};
use std::alloc::Global;

/// The address that a text spells, or `bad`.
pub fn read(alloc: Global, case: &Case<'_>, out: &mut String) -> Result<(), CaseFault> {
    match addr_in(alloc, case.argument()?)? {
        Some(addr) => put_addr(alloc, out, addr),
        None => put_word(out, "bad"),
    }
}

/// The text of an address.
pub fn print(alloc: Global, case: &Case<'_>, out: &mut String) -> Result<(), CaseFault> {
    let (family, digits) = case.arguments()?;
    let addr = read_addr(alloc, family, digits)?;
    put_bytes(alloc, out, addr.text(alloc)?.as_str().as_bytes())
}

/// The net that a text spells, as an address and how many of its bits, or `bad`.
pub fn net(alloc: Global, case: &Case<'_>, out: &mut String) -> Result<(), CaseFault> {
    let Some(net) = net_in(alloc, case.argument()?)? else {
        return put_word(out, "bad");
    };
    put_addr(alloc, out, net.addr)?;
    put_word(out, " ")?;
    put_number(out, u64::from(net.bits))
}

/// Whether the net that a text spells holds the address that another one spells.
pub fn holds(alloc: Global, case: &Case<'_>, out: &mut String) -> Result<(), CaseFault> {
    let (net, addr) = case.arguments()?;
    let Some(net) = net_in(alloc, net)? else {
        return Err(CaseFault::Bad);
    };
    let Some(addr) = addr_in(alloc, addr)? else {
        return Err(CaseFault::Bad);
    };
    put_flag(out, net.holds(&addr))
}

fn addr_in(alloc: Global, field: &str) -> Result<Option<Addr>, CaseFault> {
    Ok(Addr::read(&read_bytes(alloc, field)?))
}

fn net_in(alloc: Global, field: &str) -> Result<Option<Net>, CaseFault> {
    Ok(Net::read(&read_bytes(alloc, field)?))
}
