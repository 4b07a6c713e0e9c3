//! The queries, as they stand in a list by number.
ghost use Rattle.std.specs.Prelude.{◌≡◌, ◌++◌, ◌<◌, ◌≤◌, length, string_bytes, IfOk, OnOk};
ghost use Rattle.load_maker.specs.Queries.{asked_of, by_of, datagram_of, head_of, label_of};
ghost use Rattle.load_maker.specs.Queries.{queries_of, wire_name};

use dns_data::{Addr, Buffer, Bytes, NoMemory, Seq, Transport};
use numbers::put_decimal;
use outside::Datagram;
use std::alloc::Global;

// 127.0.0.1
const CLIENT: Addr = Addr::V4(0x7f00_0001);

const CLIENT_PORT: u16 = 5000;

const PORT: u16 = 53;

// Behind the id: RD is set, and there is one question.
const COUNTS: [u8; 10] = [1, 0, 0, 1, 0, 0, 0, 0, 0, 0];

const IN_ZONE: &[u8] = b"\x04load\x04test\0";

const IN_NONE: &[u8] = b"\x05other\x04test\0";

// Type A, class IN.
const KIND: [u8; 4] = [0, 1, 0, 1];

/// So many queries.
pub(crate) fn all_queries(alloc: Global, count: u32) -> Result<Seq<Datagram>, NoMemory>
    ensures { IfOk result (λ datagrams. datagrams ≡ queries_of count) }
{
    let mut datagrams = Seq::new(alloc);
    let mut index = 0;
    while index < count {
        datagrams.push(datagram(alloc, index)?)?;
        index += 1;
    }
    Ok(datagrams)
}

fn datagram(alloc: Global, index: u32) -> Result<Datagram, NoMemory>
    ensures { IfOk result (λ datagram. datagram ≡ datagram_of index) }
{
    let mut bytes = head(alloc, index)?;
    put_name(alloc, &mut bytes, asked(index))?;
    bytes.append(&KIND)?;
    Ok(Datagram {
        bytes: Buffer::from_slice(alloc, bytes.as_slice())?,
        client: CLIENT,
        port: CLIENT_PORT,
        by: by(index),
        local: PORT,
    })
}

// The number of the name that a query asks for.
fn asked(index: u32) -> u16
    ensures value { result ≡ asked_of index }
    ensures below { result < 1500 }
{
    (617 * index as u64 % 1500) as u16
}

fn by(index: u32) -> Transport
    ensures { result ≡ by_of index }
{
    if index % 2 == 0 {
        return Transport::Udp;
    }
    Transport::Tcp
}

// The header: the id is what of the number 16 bits hold.
fn head(alloc: Global, index: u32) -> Result<Bytes, NoMemory>
    ensures { IfOk result (λ bytes. bytes ≡ head_of index) }
{
    let mut bytes = Bytes::new(alloc);
    bytes.push((index / 256 % 256) as u8)?;
    bytes.push((index % 256) as u8)?;
    bytes.append(&COUNTS)?;
    Ok(bytes)
}

// The name of this number: the numbers below 1,400 are within the zone.
fn put_name(alloc: Global, bytes: &mut Bytes, number: u16) -> Result<(), NoMemory>
    requires { number < 1500 }
    ensures { OnOk result (bytes.new ≡ bytes.old ++ wire_name number) }
{
    let label = first_label(alloc, number)?;
    let label = label.as_bytes();
    bytes.push(label.len() as u8)?;
    bytes.append(label)?;
    bytes.append(if number < 1400 { IN_ZONE } else { IN_NONE })
}

// The first label of a name, at most five bytes.
fn first_label(alloc: Global, number: u16) -> Result<String, NoMemory>
    requires { number < 1500 }
    ensures text { IfOk result (λ label. string_bytes label ≡ label_of number) }
    ensures short { IfOk result (λ label. length (string_bytes label) ≤ 5) }
{
    let mut label = String::from_str(alloc, "h")?;
    put_decimal(&mut label, number)?;
    Ok(label)
}
