//! Runs over sides and a watch of which no call fails.
ghost use Rattle.std.specs.Prelude.{◌≢◌, ℕ, List, IfOk};
ghost use Rattle.dns_server.specs.declared.status.Status.TheVariants as status;
ghost use Rattle.outside_mem.specs.Never.{IsUnusedNever, IsUnusedNeverWatch};
ghost use Rattle.server_tests.specs.Serving.{LoadsNothing};

use crate::never_host::NeverHost;
use crate::replies::REPLY;
use crate::scripts::{looks, script};
use dns_data::{NoMemory, Text};
use dns_server::{Report, Status, run_with};
use extra_stock::{Passing, PassingBook};
use outside::{Mark, WatchMark};
use outside_mem::{NeverSide, NeverWatch};
use std::alloc::Global;
use std::sync::Wait;
use std::test::Fail;
use std::thread::Threads;

const WHOAMI: &[u8] = b".:53 {\nwhoami\n}\n";

// The Corefile at the start and at each look: the same, an unknown directive, another port, none,
// and a further directive.
const LOOKS: [&[u8]; 6] = [
    b".:53 {\nreload\nwhoami\n}\n",
    b".:53 {\nreload\nwhoami\n}\n",
    b".:53 {\nreload\nwhoamy\n}\n",
    b".:54 {\nreload\nwhoami\n}\n",
    b"",
    b".:53 {\nreload\nwhoami\nlog\n}\n",
];

const NOTES: [&str; 4] = [
    "reload refused: corefile line 3: unknown directive",
    "reload ports differ",
    "reload refused: no corefile",
    "reload published 1",
];

#[test]
fn a_query_is_answered_where_nothing_fails(rt: HostRuntime) -> Result<(), Fail> {
    let mut host = host(rt.alloc(), &[WHOAMI], 1)?;
    let report = ran(&rt, rt.alloc(), &mut host)?;
    assert!(rt; has_ended(&report, 1));
    assert!(rt; has_replied(&report));
    Ok(())
}

#[test]
fn a_change_is_published_where_nothing_fails(rt: HostRuntime) -> Result<(), Fail> {
    let mut host = host(rt.alloc(), &LOOKS, 0)?;
    let report = ran(&rt, rt.alloc(), &mut host)?;
    assert!(rt; has_ended(&report, 2));
    assert!(rt; has_noted(&report));
    Ok(())
}

// A side that gives the query so many times.
fn side(alloc: Global, queries: u32) -> Result<NeverSide, NoMemory>
    ensures { IfOk result IsUnusedNever }
{
    let script = script(alloc, queries)?;
    NeverSide::new(alloc, script)
}

// A watch that finds these Corefiles.
fn watch(alloc: Global, corefiles: &[&[u8]]) -> Result<NeverWatch, NoMemory>
    ensures { IfOk result IsUnusedNeverWatch }
{
    let script = looks(alloc, corefiles)?;
    NeverWatch::new(alloc, script)
}

// A host whose watch finds these Corefiles, and whose side over UDP gives the query so many times.
fn host(alloc: Global, corefiles: &[&[u8]], queries: u32) -> Result<NeverHost, NoMemory> {
    let watch = watch(alloc, corefiles)?;
    let udp = side(alloc, queries)?;
    let tcp = side(alloc, 0)?;
    Ok(NeverHost::new(udp, tcp, watch))
}

// Words that ask to serve by the Corefile.
fn serving(alloc: Global) -> Result<Vec<Text>, NoMemory>
    ensures { IfOk result (λ words. LoadsNothing words.items) }
{
    let mut words = Vec::new(alloc);
    words.push(Text::from_str(alloc, "serve")?)?;
    words.push(Text::from_str(alloc, "--conf")?)?;
    words.push(Text::from_str(alloc, "/Corefile")?)?;
    Ok(words)
}

// A run that serves, and ends by no status that a failing call brings.
fn ran<R: Threads + Wait + Sync>(
    rt: &R,
    alloc: Global,
    host: &mut NeverHost,
) -> Result<Report<NeverHost, Passing>, NoMemory>
    ensures receives { IfOk result (λ report. report.status ≢ status.WorkerFailed) }
    ensures reads { IfOk result (λ report.
        (name : List ℕ) → report.status ≢ status.ReadFailed name) }
    ensures opens { IfOk result (λ report. report.status ≢ status.OpenFailed) }
    ensures tells { IfOk result (λ report. report.status ≢ status.TellFailed) }
{
    let words = serving(alloc)?;
    let none: Vec<Passing> = Vec::new(alloc);
    Ok(run_with::<R, NeverHost, PassingBook, Passing>(rt, alloc, &words, &[], host, none))
}

fn has_ended(report: &Report<NeverHost, Passing>, published: u64) -> bool {
    matches!(report.status, Status::Ended) && report.published == published
}

// Whether the first side sent the reply under the first generation.
fn has_replied(report: &Report<NeverHost, Passing>) -> bool {
    match report.sides.as_slice().first() {
        Some(done) => replied(&done.side),
        None => false,
    }
}

fn replied(side: &NeverSide) -> bool {
    match side.journal() {
        Some([Mark::Got(_), Mark::Pinned(0), Mark::Sent(reply, true), ..]) => reply.is(REPLY),
        _ => false,
    }
}

// Whether the watch noted just the lines of its looks.
fn has_noted(report: &Report<NeverHost, Passing>) -> bool {
    match &report.watch {
        Some(watch) => noted(watch),
        None => false,
    }
}

fn noted(watch: &NeverWatch) -> bool {
    let mut left = NOTES.iter();
    for mark in watch.journal().unwrap_or(&[]) {
        if let WatchMark::Noted(line, _) = mark {
            match left.next() {
                Some(wanted) if line.is(wanted.as_bytes()) => {}
                _ => return false,
            }
        }
    }
    left.next().is_none()
}
