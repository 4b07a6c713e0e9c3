ghost use Rattle.std.specs.Prelude.{IfOk};
ghost use Rattle.outside_mem.specs.Unused.{IsUnusedSide, IsUnusedWatch};

use dns_data::{Addr, Answer, Buffer, Bytes, Name, NoMemory, Query, Seq, Text, Transport};
use outside::{
    Class, Datagram, Entry, FileSet, Host, InnerMark, Key, Made, Outcome, PatternMaker, ReadOut,
    Received, Seen, Side, SideScript, Upstream, Watch, WatchScript,
};
use outside_mem::{MemHost, MemSide, MemWatch};
use std::alloc::Global;

const UPSTREAM: Upstream = Upstream {
    addr: Addr::V4(0xc000_0201),
    port: 53,
};

fn datagram(alloc: Global, byte: u8) -> Result<Datagram, NoMemory> {
    Ok(Datagram {
        bytes: Buffer::from_slice(alloc, &[byte])?,
        client: Addr::V4(0x7f00_0001),
        port: 4000,
        by: Transport::Udp,
        local: 53,
    })
}

fn datagrams(alloc: Global) -> Result<Vec<Datagram>, NoMemory> {
    Ok(vec![in alloc; datagram(alloc, 1)?, datagram(alloc, 2)?]?)
}

fn outcomes(alloc: Global) -> Result<Vec<Outcome>, NoMemory> {
    let first = Outcome::Got(Bytes::from_slice(alloc, &[3])?);
    Ok(vec![in alloc; first, Outcome::Got(Bytes::from_slice(alloc, &[4])?)]?)
}

// The datagrams 1 and 2, the times 7 and 9, the word 5, and the outcomes 3 and 4.
pub fn side_script(alloc: Global) -> Result<SideScript, NoMemory> {
    let mut script = SideScript::of_gets(alloc, datagrams(alloc)?);
    script.nows = vec![in alloc; 7, 9]?;
    script.words = vec![in alloc; 5]?;
    script.asks = outcomes(alloc)?;
    Ok(script)
}

// In each list of failing calls, this one too.
pub fn failing(mut script: SideScript, call: u64) -> Result<SideScript, NoMemory> {
    script.fail_recv.push(call)?;
    script.fail_send.push(call)?;
    script.fail_ask.push(call)?;
    script.fail_note.push(call)?;
    Ok(script)
}

// The first byte of the datagram that came.
pub fn received(side: &mut MemSide) -> Option<u8> {
    match side.recv() {
        Received::Got(datagram) => datagram.bytes.as_slice().first().copied(),
        Received::End | Received::Failed | Received::NoMemory => None,
    }
}

fn first_byte(outcome: &Outcome) -> Option<u8> {
    match outcome {
        Outcome::Got(bytes) => bytes.as_slice().first().copied(),
        Outcome::Silence | Outcome::Failed | Outcome::NoMemory => None,
    }
}

pub fn asked(side: &mut MemSide) -> Option<u8> {
    first_byte(&side.ask(&UPSTREAM, Transport::Udp, b"?"))
}

pub fn more(side: &mut MemSide) -> Option<u8> {
    first_byte(&side.more())
}

// How many marks the side told, or None where it tells no more.
pub fn told(side: &MemSide) -> Option<usize> {
    match side.journal() {
        Some(marks) => Some(marks.len()),
        None => None,
    }
}

fn answer(alloc: Global) -> Answer {
    Answer {
        rcode: 3,
        aa: true,
        ra: false,
        tc: false,
        answer: Seq::new(alloc),
        authority: Seq::new(alloc),
        additional: Seq::new(alloc),
    }
}

fn query(alloc: Global) -> Query {
    Query {
        name: Name::root(alloc),
        kind: 1,
        dnssec: false,
        cd: false,
        rd: true,
        edns: false,
        client: Addr::V4(1),
        port: 4000,
        by: Transport::Udp,
        local: 53,
    }
}

fn entry(alloc: Global) -> Result<Entry, NoMemory> {
    Ok(Entry {
        class: Class::Denial,
        born: 7,
        life: 5,
        answer: answer(alloc),
        origin: query(alloc),
        inner: Seq::of(vec![in alloc; InnerMark::Word(5), InnerMark::More(Outcome::Silence)]?),
    })
}

// A generation was pinned, looked in twice, put into and unpinned.
pub fn see(side: &mut MemSide, alloc: Global) -> Result<(), NoMemory> {
    let entry = entry(alloc)?;
    let key = Key {
        name: Name::root(alloc),
        kind: 1,
        dnssec: false,
        cd: true,
    };
    side.saw(Seen::Pinned(4));
    see_entry(side, &key, &entry);
    side.saw(Seen::Unpinned(4));
    Ok(())
}

fn see_entry(side: &mut MemSide, key: &Key, entry: &Entry) {
    side.saw(Seen::Looked(key, 8, None));
    side.saw(Seen::Looked(key, 9, Some(entry)));
    side.saw(Seen::Put(key, entry, true));
}

fn corefile(alloc: Global, size: usize) -> Result<FileSet, NoMemory> {
    let bytes = Vec::from_elem(alloc, 0u8, size)?;
    FileSet::of_file(alloc, "Corefile", &bytes)
}

// A set a size. The read of number 1 and the note of number 0 are to fail.
pub fn watch_script(alloc: Global, sizes: &[usize]) -> Result<WatchScript, NoMemory> {
    let mut looks = Vec::new(alloc);
    for size in sizes {
        looks.push(corefile(alloc, *size)?)?;
    }
    let mut script = WatchScript::of_looks(alloc, looks);
    script.fail_read = vec![in alloc; 1]?;
    script.fail_note = vec![in alloc; 0]?;
    Ok(script)
}

// How many marks the watch told, or None where it tells no more.
pub fn watch_told(watch: &MemWatch) -> Option<usize> {
    match watch.journal() {
        Some(marks) => Some(marks.len()),
        None => None,
    }
}

pub fn is_made(alloc: Global, watch: &mut MemWatch, text: &Text) -> bool {
    match watch.make(alloc, text) {
        Made::Pattern(_) => true,
        Made::NotPattern | Made::Refused | Made::NoMemory => false,
    }
}

pub fn size_read(watch: &mut MemWatch, name: &Text) -> Option<usize> {
    match watch.read(name) {
        ReadOut::Got(bytes) => Some(bytes.len()),
        ReadOut::Missing | ReadOut::Failed | ReadOut::NoMemory => None,
    }
}

fn unused_side(alloc: Global) -> Result<MemSide, NoMemory>
    ensures { IfOk result IsUnusedSide }
{
    let script = side_script(alloc)?;
    MemSide::new(alloc, script)
}

fn unused_watch(alloc: Global) -> Result<MemWatch, NoMemory>
    ensures { IfOk result IsUnusedWatch }
{
    MemWatch::new(alloc, WatchScript::of_looks(alloc, Vec::new(alloc)))
}

pub fn host_of_two_sides(alloc: Global) -> Result<MemHost, NoMemory> {
    let mut sides = Vec::new(alloc);
    sides.push(unused_side(alloc)?)?;
    sides.push(unused_side(alloc)?)?;
    Ok(MemHost::new(alloc, sides, unused_watch(alloc)?))
}

// Opens the next side, and receives once.
pub fn received_of_next(host: &mut MemHost, number: u32) -> Option<u8> {
    match host.open_side(53, Transport::Udp, number) {
        Ok(mut side) => received(&mut side),
        Err(_) => None,
    }
}
