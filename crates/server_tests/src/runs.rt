//! Runs with voices.
use crate::scripts::{host, texts};
use crate::staged_host::{FREE, StagedHost};
use crate::voice::{Voice, VoiceBook, voices};
use dns_data::NoMemory;
use dns_server::{Report, run_with};
use std::alloc::Global;
use std::sync::Wait;
use std::thread::Threads;

pub type Spoken = Report<StagedHost, Voice>;

/// A run on a host with these extras.
#[tactic(auto, using(crate::specs::VoiceLaws::voices_obey))]
pub fn ran_on<R: Threads + Wait + Sync>(
    rt: &R,
    alloc: Global,
    host: &mut StagedHost,
    extras: Vec<Voice>,
) -> Result<Spoken, NoMemory> {
    let words = texts(alloc, "serve --conf /Corefile")?;
    Ok(run_with::<R, StagedHost, VoiceBook, Voice>(rt, alloc, &words, &[], host, extras))
}

/// A run over these Corefiles, the first at the start and one more at each look, with a side over
/// UDP that gives so many queries, one over TCP that gives none, and voices of these names.
pub fn ran_voices<R: Threads + Wait + Sync>(
    rt: &R,
    alloc: Global,
    corefiles: &[&[u8]],
    queries: u32,
    names: &str,
) -> Result<Spoken, NoMemory> {
    let extras = voices(alloc, names, 0, 0)?;
    let mut host = host(alloc, corefiles, &[queries, 0], FREE)?;
    ran_on(rt, alloc, &mut host, extras)
}

/// The same without a query, where the voice of this number refuses to be set at this call.
pub fn ran_refusing<R: Threads + Wait + Sync>(
    rt: &R,
    alloc: Global,
    corefiles: &[&[u8]],
    number: usize,
    refused: u64,
) -> Result<Spoken, NoMemory> {
    let extras = voices(alloc, "a a a a a", number, refused)?;
    let mut host = host(alloc, corefiles, &[0, 0], FREE)?;
    ran_on(rt, alloc, &mut host, extras)
}
