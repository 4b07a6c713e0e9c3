ghost use Rattle.std.specs.Prelude.{◌≤◌, ◌+◌, length};
ghost use Rattle.dns_wire.specs.Cursor.{ReadsData};
ghost use Rattle.dns_wire.specs.Known.{AreKnown};

use crate::WireFault;
use crate::cursor::Cursor;
use crate::known::KnownNames;
use dns_data::{Bytes, Rdata, Soa, is_known_type, kind};
use std::alloc::Global;

/// Reads the data of a record of a type that isn't OPT: it stands at an offset and is used up just
/// before another.
pub fn read_data(
    alloc: Global,
    bytes: &[u8],
    known: &mut KnownNames,
    kind: u16,
    at: usize,
    behind: usize,
) -> Result<Rdata, WireFault>
    requires order { at ≤ behind }
    requires inside { behind ≤ length bytes.now }
    requires short { behind ≤ at + 65535 }
    requires known { AreKnown bytes.now known.old }
    ensures spelt { ReadsData bytes.now kind at behind result }
    ensures known { AreKnown bytes.now known.new }
{
    if !is_known_type(kind) {
        return Ok(Rdata::Opaque(kind, Bytes::from_slice(alloc, &bytes[at..behind])?));
    }
    let mut data = Cursor::new(alloc, bytes, at, behind);
    match kind {
        kind::A => {
            let rdata = Rdata::A(data.u32());
            data.finish(kind, rdata)
        }
        kind::NS => {
            let rdata = Rdata::Ns(data.name(known)?);
            data.finish(kind, rdata)
        }
        kind::CNAME => {
            let rdata = Rdata::Cname(data.name(known)?);
            data.finish(kind, rdata)
        }
        kind::SOA => {
            let rdata = Rdata::Soa(Soa {
                mname: data.name(known)?,
                rname: data.name(known)?,
                serial: data.u32(),
                refresh: data.u32(),
                retry: data.u32(),
                expire: data.u32(),
                minimum: data.u32(),
            });
            data.finish(kind, rdata)
        }
        kind::PTR => {
            let rdata = Rdata::Ptr(data.name(known)?);
            data.finish(kind, rdata)
        }
        kind::HINFO => {
            let rdata = Rdata::Hinfo(data.string()?, data.string()?);
            data.finish(kind, rdata)
        }
        kind::MX => {
            let rdata = Rdata::Mx(data.u16(), data.name(known)?);
            data.finish(kind, rdata)
        }
        kind::TXT => {
            let rdata = Rdata::Txt(data.strings()?);
            data.finish(kind, rdata)
        }
        kind::AAAA => {
            let rdata = Rdata::Aaaa(data.u128());
            data.finish(kind, rdata)
        }
        kind::SRV => {
            let rdata = Rdata::Srv(data.u16(), data.u16(), data.u16(), data.name(known)?);
            data.finish(kind, rdata)
        }
        kind::CAA => {
            let rdata = Rdata::Caa(data.u8(), data.non_empty()?, data.remainder()?);
            data.finish(kind, rdata)
        }
        _ => Err(WireFault::Bad),
    }
}
