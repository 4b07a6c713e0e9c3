//! What the runs are given.
ghost use Rattle.std.specs.Prelude.{IfOk};
ghost use Rattle.std.specs.List.{All};
ghost use Rattle.outside_mem.specs.Never.{NeverFails, WatchNeverFails};
ghost use Rattle.outside_mem.specs.Unused.{IsUnusedSide, IsUnusedWatch};

use crate::stage::Stage;
use crate::staged_host::{StagedHost, Staging};
use crate::telling_host::TellingHost;
use dns_data::{Addr, Buffer, NoMemory, Text, Transport};
use dns_server::{Report, run_with};
use extra_stock::{Passing, PassingBook};
use outside::{Datagram, FileSet, SideScript, WatchScript};
use outside_mem::{MemHost, MemSide, MemWatch};
use sinkhole_plugin::{Sinkhole, SinkholeBook};
use std::alloc::Global;
use std::sync::{Arc, Wait};
use std::thread::Threads;

/// example.org, A, IN, with RD.
pub const QUERY: &[u8; 29] =
    b"\x12\x34\x01\x00\x00\x01\x00\x00\x00\x00\x00\x00\x07example\x03org\x00\x00\x01\x00\x01";

// The query with type A, or with AAAA where its number is odd.
fn query(number: u32) -> [u8; 29] {
    let mut bytes = *QUERY;
    if number % 2 == 1 {
        bytes[26] = 28;
    }
    bytes
}

/// A script that gives the query so many times, from 127.0.0.1, port 4000, over UDP to port 53: first
/// with type A, then with AAAA, and so on.
pub fn script(alloc: Global, queries: u32) -> Result<SideScript, NoMemory>
    ensures { IfOk result NeverFails }
{
    let mut gets = Vec::new(alloc);
    for number in 0..queries {
        gets.push(Datagram {
            bytes: Buffer::from_slice(alloc, &query(number))?,
            client: Addr::V4(0x7f00_0001),
            port: 4000,
            by: Transport::Udp,
            local: 53,
        })?;
    }
    Ok(SideScript::of_gets(alloc, gets))
}

// A side that gives the query so many times.
fn side(alloc: Global, queries: u32) -> Result<MemSide, NoMemory>
    ensures { IfOk result IsUnusedSide }
{
    let script = script(alloc, queries)?;
    MemSide::new(alloc, script)
}

// A side for each number of queries.
fn sides(alloc: Global, queries: &[u32]) -> Result<Vec<MemSide>, NoMemory>
    ensures { IfOk result (λ sides. All IsUnusedSide sides.items) }
{
    let mut sides = Vec::new(alloc);
    for count in queries {
        sides.push(side(alloc, *count)?)?;
    }
    Ok(sides)
}

/// What a watch finds: these Corefiles, the first at the start and one more at each look. An empty
/// one isn't there.
pub fn looks(alloc: Global, corefiles: &[&[u8]]) -> Result<WatchScript, NoMemory>
    ensures { IfOk result WatchNeverFails }
{
    let mut looks = Vec::new(alloc);
    for corefile in corefiles {
        let name = if corefile.len() == 0 {
            "/none"
        } else {
            "/Corefile"
        };
        looks.push(FileSet::of_file(alloc, name, corefile)?)?;
    }
    Ok(WatchScript::of_looks(alloc, looks))
}

// A watch that finds these Corefiles.
fn watch(alloc: Global, corefiles: &[&[u8]]) -> Result<MemWatch, NoMemory>
    ensures { IfOk result IsUnusedWatch }
{
    let script = looks(alloc, corefiles)?;
    MemWatch::new(alloc, script)
}

/// A host whose watch finds these Corefiles, whose sides give the query so many times each, and
/// whose parties wait so for one another.
pub fn host(
    alloc: Global,
    corefiles: &[&[u8]],
    queries: &[u32],
    staging: Staging,
) -> Result<StagedHost, NoMemory> {
    let watch = watch(alloc, corefiles)?;
    let sides = sides(alloc, queries)?;
    let host = MemHost::new(alloc, sides, watch);
    let stage = Arc::new(alloc, Stage::new())?;
    Ok(StagedHost {
        host,
        stage,
        staging,
    })
}

/// Words with spaces between them.
pub fn texts(alloc: Global, words: &str) -> Result<Vec<Text>, NoMemory> {
    let mut texts = Vec::new(alloc);
    for word in words.split(' ') {
        texts.push(Text::from_str(alloc, word)?)?;
    }
    Ok(texts)
}

/// A run by these words, without extras.
pub fn ran<R: Threads + Wait + Sync>(
    rt: &R,
    alloc: Global,
    words: &str,
    host: &mut StagedHost,
) -> Result<Report<StagedHost, Passing>, NoMemory> {
    let words = texts(alloc, words)?;
    let none: Vec<Passing> = Vec::new(alloc);
    Ok(run_with::<R, StagedHost, PassingBook, Passing>(rt, alloc, &words, &[], host, none))
}

/// A run by these words over a host that opens nothing, without extras.
pub fn loaded<R: Threads + Wait + Sync>(
    rt: &R,
    alloc: Global,
    words: &str,
    host: &mut TellingHost,
) -> Result<Report<TellingHost, Passing>, NoMemory> {
    let words = texts(alloc, words)?;
    let none: Vec<Passing> = Vec::new(alloc);
    Ok(run_with::<R, TellingHost, PassingBook, Passing>(rt, alloc, &words, &[], host, none))
}

// So many sinkholes.
fn sinkholes(alloc: Global, count: u32) -> Result<Vec<Sinkhole>, NoMemory> {
    let mut sinkholes = Vec::new(alloc);
    for _ in 0..count {
        sinkholes.push(Sinkhole::new())?;
    }
    Ok(sinkholes)
}

/// A run by these words, with so many sinkholes.
#[tactic(auto, using(sinkhole_plugin::specs::SinkholeLaws::sinkholes_obey))]
pub fn ran_with<R: Threads + Wait + Sync>(
    rt: &R,
    alloc: Global,
    words: &str,
    host: &mut StagedHost,
    count: u32,
) -> Result<Report<StagedHost, Sinkhole>, NoMemory> {
    let words = texts(alloc, words)?;
    let extras = sinkholes(alloc, count)?;
    Ok(run_with::<R, StagedHost, SinkholeBook, Sinkhole>(rt, alloc, &words, &[], host, extras))
}
