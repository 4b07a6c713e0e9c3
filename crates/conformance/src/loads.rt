//! The data of a load: `load COUNT`.

use crate::case::Case;
use case_fields::{CaseFault, put_bytes, put_number, put_word};
use dns_data::Transport;
use load_maker::make;
use outside::Datagram;
use std::alloc::Global;

/// Both forms of the Corefile, the zone, and each query with how it comes.
pub fn data(alloc: Global, case: &Case<'_>, out: &mut String) -> Result<(), CaseFault> {
    let Ok(count) = case.argument()?.parse::<u32>() else {
        return Err(CaseFault::Bad);
    };
    let load = make(alloc, count)?;
    put_bytes(alloc, out, load.conf.as_slice())?;
    put_behind(alloc, out, load.second.as_slice())?;
    put_behind(alloc, out, load.zone.as_slice())?;
    for datagram in load.datagrams.as_slice() {
        put_datagram(alloc, out, datagram)?;
    }
    Ok(())
}

fn put_behind(alloc: Global, out: &mut String, bytes: &[u8]) -> Result<(), CaseFault> {
    put_word(out, " ")?;
    put_bytes(alloc, out, bytes)
}

// Its bytes, the client's address and port, how it comes, and the port to which it does.
fn put_datagram(alloc: Global, out: &mut String, datagram: &Datagram) -> Result<(), CaseFault> {
    put_behind(alloc, out, datagram.bytes.as_slice())?;
    put_word(out, ",")?;
    put_word(out, datagram.client.text(alloc)?.as_str())?;
    put_word(out, ",")?;
    put_number(out, u64::from(datagram.port))?;
    put_word(out, by_text(datagram.by))?;
    put_number(out, u64::from(datagram.local))
}

fn by_text(by: Transport) -> &'static str {
    match by {
        Transport::Udp => ",udp,",
        Transport::Tcp => ",tcp,",
    }
}
