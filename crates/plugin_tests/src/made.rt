//! What tests hand to plugins, and what they see of answers.
use dns_data::{
    Addr, Directive, Line, Name, NoMemory, Query, Rdata, Record, RecordRoom, Seq, Soa, Text, class,
};
use std::alloc::Global;
use std::fmt::Write;

/// The name that a text spells, or the root.
pub(crate) fn name(alloc: Global, text: &str) -> Name {
    match Name::read(alloc, text.as_bytes(), &Name::root(alloc)) {
        Ok(name) => name,
        Err(_) => Name::root(alloc),
    }
}

/// A directive `dns64` of line 7: its words, and the lines of its body from line 8 on, each behind
/// `;`.
pub(crate) fn directive(alloc: Global, text: &str) -> Result<Directive, NoMemory> {
    let mut args = Seq::new(alloc);
    let mut body = Seq::new(alloc);
    let mut number = 7_u32;
    for line in text.split(';') {
        if number == 7 {
            args = words(alloc, line)?;
        } else {
            let words = words(alloc, line)?;
            body.push(Line { words, number })?;
        }
        number = number.saturating_add(1);
    }
    Ok(Directive {
        name: Text::from_str(alloc, "dns64")?,
        args,
        body,
        line: 7,
    })
}

fn words(alloc: Global, line: &str) -> Result<Seq<Text>, NoMemory> {
    let mut words = Seq::new(alloc);
    for word in line.split_whitespace() {
        words.push(Text::from_str(alloc, word)?)?;
    }
    Ok(words)
}

/// A query of this type for a name, from this client.
pub(crate) fn query(alloc: Global, owner: &str, kind: u16, client: Addr) -> Query {
    Query {
        name: name(alloc, owner),
        kind,
        client,
        ..Query::blank(alloc)
    }
}

/// Adds an SOA of the root.
pub(crate) fn push_soa(alloc: Global, ttl: u16, room: &mut RecordRoom) -> Result<(), NoMemory> {
    let soa = Rdata::Soa(Soa {
        mname: name(alloc, "ns.test"),
        rname: name(alloc, "a.test"),
        serial: 1,
        refresh: 2,
        retry: 3,
        expire: 4,
        minimum: 5,
    });
    let entry = Record::new(Name::root(alloc), class::IN, u32::from(ttl), soa);
    room.push(alloc, &entry)
}

/// Adds a name of an address.
pub(crate) fn push_ptr(
    alloc: Global,
    owner: &str,
    ttl: u16,
    target: &str,
    room: &mut RecordRoom,
) -> Result<(), NoMemory> {
    let rdata = Rdata::Ptr(name(alloc, target));
    let entry = Record::new(name(alloc, owner), class::IN, u32::from(ttl), rdata);
    room.push(alloc, &entry)
}

/// Adds an alias.
pub(crate) fn push_cname(
    alloc: Global,
    owner: &str,
    ttl: u16,
    target: &str,
    room: &mut RecordRoom,
) -> Result<(), NoMemory> {
    let rdata = Rdata::Cname(name(alloc, target));
    let entry = Record::new(name(alloc, owner), class::IN, u32::from(ttl), rdata);
    room.push(alloc, &entry)
}

/// Adds an address.
pub(crate) fn push_address(
    alloc: Global,
    owner: &str,
    ttl: u16,
    addr: Addr,
    room: &mut RecordRoom,
) -> Result<(), NoMemory> {
    room.push_address(alloc, &name(alloc, owner), u32::from(ttl), addr)
}

/// Records as text, with `; ` behind each.
pub(crate) fn shown(alloc: Global, records: &[Record]) -> Result<Text, NoMemory> {
    let mut text = Text::new(alloc);
    for entry in records {
        let owner = entry.owner.text(alloc)?;
        let kind = entry.rdata.kind();
        let data = data_shown(alloc, &entry.rdata)?;
        text.append(owner.as_str())?;
        text.append(number_shown(alloc, entry.ttl)?.as_str())?;
        text.append(number_shown(alloc, u32::from(kind))?.as_str())?;
        text.append(" ")?;
        text.append(data.as_str())?;
        text.append("; ")?;
    }
    Ok(text)
}

fn number_shown(alloc: Global, number: u32) -> Result<Text, NoMemory> {
    let mut text = String::new(alloc);
    match write!(text, " {number}") {
        Ok(()) => Ok(Text::of(text)),
        Err(_) => Err(NoMemory),
    }
}

fn data_shown(alloc: Global, rdata: &Rdata) -> Result<Text, NoMemory> {
    match rdata {
        Rdata::A(addr) => Addr::V4(*addr).text(alloc),
        Rdata::Aaaa(addr) => Addr::V6(*addr).text(alloc),
        Rdata::Cname(target) | Rdata::Ptr(target) => target.text(alloc),
        _ => Text::from_str(alloc, "?"),
    }
}
