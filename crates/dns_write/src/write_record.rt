ghost use Rattle.std.specs.Prelude.{◌≡◌, ◌+◌, length, slice_index, OnOk};
ghost use Rattle.std.specs.List.{AllByRecursion};
ghost use Rattle.dns_data.specs.Record.{IsFormed, IsProper, IsCharacterString, fields_of};
ghost use Rattle.dns_names.specs.Name.{spelled};
ghost use Rattle.dns_data.specs.declared.kind.TheConstants as kinds;
ghost use Rattle.dns_data.specs.declared.record.Rdata.TheVariants as rdata;
ghost use Rattle.dns_write.specs.Written.{put_u16, put_u32, put_string, put_strings, put_fields};
ghost use Rattle.dns_write.specs.Timed.{timed};
ghost use Rattle.dns_write.specs.Written.{put_data, put_record};

use crate::ttls::Ttls;
use crate::writer::Writer;
use dns_data::{Bytes, Name, NoMemory, Rdata, Record, Soa, kind};

/// Puts a record with a TTL, at whatever length.
#[tactic(auto, using(crate::proofs::Timing::is_timed))]
pub fn put_record<'a, T: Ttls>(
    writer: &mut Writer<'a>,
    rr: &'a Record,
    times: &T,
) -> Result<(), NoMemory>
    ensures text { OnOk result
        (writer.new ≡ put_record writer.old (timed (T.ttl_of times.now) rr.now)) }
    ensures proper { OnOk result (IsProper (timed (T.ttl_of times.now) rr.now)) }
{
    writer.put_name(&rr.owner)?;
    let (kind, class, ttl) = (rr.rdata.kind(), rr.class, times.ttl(rr));
    match &rr.rdata {
        Rdata::A(addr) => put_address(writer, kind, class, ttl, *addr),
        Rdata::Aaaa(addr) => {
            put_head(writer, kind, class, ttl, 16)?;
            writer.put_few(addr.to_be_bytes())
        }
        Rdata::Srv(priority, weight, port, target) => {
            put_service(writer, class, ttl, [*priority, *weight, *port], target)
        }
        rdata => {
            put_head(writer, kind, class, ttl, 0)?;
            let at = writer.len();
            put_data(writer, rdata)?;
            writer.fill_length(at);
            Ok(())
        }
    }
}

// Type, class and TTL, and the length of the data. Where that isn't known before the data it is 0
// as yet.
#[inline]
fn put_head(
    writer: &mut Writer<'_>,
    kind: u16,
    class: u16,
    ttl: u32,
    length: u16,
) -> Result<(), NoMemory>
    ensures { OnOk result
        (writer.new ≡ put_u16 (put_u32 (put_u16 (put_u16 writer.old kind) class) ttl) length) }
{
    let kind = kind.to_be_bytes();
    let class = class.to_be_bytes();
    let ttl = ttl.to_be_bytes();
    let length = length.to_be_bytes();
    writer.put_few([
        kind[0], kind[1], class[0], class[1], ttl[0], ttl[1], ttl[2], ttl[3], length[0], length[1],
    ])
}

// What stands behind the owner of an A record, by one put.
#[inline]
fn put_address(
    writer: &mut Writer<'_>,
    kind: u16,
    class: u16,
    ttl: u32,
    addr: u32,
) -> Result<(), NoMemory>
    ensures { OnOk result (writer.new
        ≡ put_u32 (put_u16 (put_u32 (put_u16 (put_u16 writer.old kind) class) ttl) 4) addr) }
{
    let kind = kind.to_be_bytes();
    let class = class.to_be_bytes();
    let ttl = ttl.to_be_bytes();
    let addr = addr.to_be_bytes();
    writer.put_few([
        kind[0], kind[1], class[0], class[1], ttl[0], ttl[1], ttl[2], ttl[3], 0, 4, addr[0],
        addr[1], addr[2], addr[3],
    ])
}

// What stands behind the owner of an SRV record: all in front of its target by one put, and the
// target, which is written whole (RFC 2782).
#[inline(always)]
fn put_service(
    writer: &mut Writer<'_>,
    class: u16,
    ttl: u32,
    numbers: [u16; 3],
    target: &Name,
) -> Result<(), NoMemory>
    ensures { OnOk result (writer.new ≡ put_data
        (put_u16 (put_u32 (put_u16 (put_u16 writer.old kinds.SRV) class) ttl)
        (length (spelled target.now) + 7))
        (rdata.Srv (slice_index numbers 0) (slice_index numbers 1)
        (slice_index numbers 2) target.now)) }
{
    let wire = target.as_wire();
    let kind = kind::SRV.to_be_bytes();
    let class = class.to_be_bytes();
    let ttl = ttl.to_be_bytes();
    let length = (wire.len() as u16 + 7).to_be_bytes();
    let priority = numbers[0].to_be_bytes();
    let weight = numbers[1].to_be_bytes();
    let port = numbers[2].to_be_bytes();
    writer.put_few([
        kind[0],
        kind[1],
        class[0],
        class[1],
        ttl[0],
        ttl[1],
        ttl[2],
        ttl[3],
        length[0],
        length[1],
        priority[0],
        priority[1],
        weight[0],
        weight[1],
        port[0],
        port[1],
    ])?;
    writer.put_labels(wire)?;
    writer.put_few([0])
}

// The data alone.
#[tactic(auto, unfolding(crate::specs::Written::put_data))]
fn put_data<'a>(writer: &mut Writer<'a>, rdata: &'a Rdata) -> Result<(), NoMemory>
    requires { IsFormed rdata.now }
    ensures { OnOk result (writer.new ≡ put_data writer.old rdata.now) }
{
    match rdata {
        Rdata::A(addr) => writer.put_few(addr.to_be_bytes()),
        Rdata::Ns(name) => writer.put_name(name),
        Rdata::Cname(name) => writer.put_name(name),
        Rdata::Soa(soa) => put_soa(writer, soa),
        Rdata::Ptr(name) => writer.put_name(name),
        Rdata::Hinfo(cpu, os) => {
            put_string(writer, cpu)?;
            put_string(writer, os)
        }
        Rdata::Mx(preference, exchange) => {
            writer.put_few(preference.to_be_bytes())?;
            writer.put_name(exchange)
        }
        Rdata::Txt(strings) => put_strings(writer, strings.as_slice()),
        Rdata::Aaaa(addr) => writer.put_few(addr.to_be_bytes()),
        Rdata::Srv(priority, weight, port, target) => {
            let priority = priority.to_be_bytes();
            let weight = weight.to_be_bytes();
            let port = port.to_be_bytes();
            writer.put_few([
                priority[0],
                priority[1],
                weight[0],
                weight[1],
                port[0],
                port[1],
            ])?;
            writer.put_labels(target.as_wire())?;
            writer.put_few([0])
        }
        Rdata::Caa(flags, tag, value) => {
            writer.put_few([*flags])?;
            put_string(writer, tag)?;
            writer.put(value.as_slice())
        }
        Rdata::Opaque(_, bytes) => writer.put(bytes.as_slice()),
    }
}

fn put_soa<'a>(writer: &mut Writer<'a>, soa: &'a Soa) -> Result<(), NoMemory>
    ensures { OnOk result (writer.new ≡ put_fields writer.old (fields_of (rdata.Soa soa.now))) }
{
    writer.put_name(&soa.mname)?;
    writer.put_name(&soa.rname)?;
    let serial = soa.serial.to_be_bytes();
    let refresh = soa.refresh.to_be_bytes();
    let retry = soa.retry.to_be_bytes();
    let expire = soa.expire.to_be_bytes();
    let minimum = soa.minimum.to_be_bytes();
    // The serial and the four times by one put.
    writer.put_few([
        serial[0], serial[1], serial[2], serial[3], refresh[0], refresh[1], refresh[2], refresh[3],
        retry[0], retry[1], retry[2], retry[3], expire[0], expire[1], expire[2], expire[3],
        minimum[0], minimum[1], minimum[2], minimum[3],
    ])
}

// A character-string behind its length.
fn put_string(writer: &mut Writer<'_>, string: &Bytes) -> Result<(), NoMemory>
    requires { IsCharacterString string.now }
    ensures { OnOk result (writer.new ≡ put_string writer.old string.now) }
{
    writer.put_few([string.len() as u8])?;
    writer.put(string.as_slice())
}

fn put_strings(writer: &mut Writer<'_>, strings: &[Bytes]) -> Result<(), NoMemory>
    requires { AllByRecursion IsCharacterString strings.now }
    ensures { OnOk result (writer.new ≡ put_strings writer.old strings.now) }
{
    for string in strings {
        put_string(writer, string)?;
    }
    Ok(())
}
