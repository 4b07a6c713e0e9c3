//! Whole runs over a host in memory, and what they leave: the lines from `case SEED` to `end`.
ghost use Rattle.std.specs.Prelude.{IfOk};
ghost use Rattle.std.specs.List.{All};
ghost use Rattle.outside_mem.specs.Unused.{IsUnusedSide};

use crate::marks::{mark_text, watch_text};
use crate::plain::{Sources, count_differences};
use crate::rounds::RoundHost;
use crate::runs::RunCase;
use case_fields::{CaseFault, bytes_field};
use command_line::{Command, DEFAULT_PORT, read_command};
use corefile_words::Pair;
use dns_data::{NoMemory, Text};
use dns_server::{Report, Status, run_with};
use outside::SideScript;
use outside_mem::{MemHost, MemSide, MemWatch};
use sinkhole_plugin::{Sinkhole, SinkholeBook};
use std::alloc::Global;
use std::io;
use std::io::Write;
use std::sync::Wait;
use std::thread::Threads;

/// Runs what a case gives, and prints its status, the lines that were told, and the marks of each
/// side and of the watch; and where the plain evaluator says another thing of some turns, how many.
pub fn print<R: Threads + Wait + Sync, W: Write>(
    rt: &R,
    alloc: Global,
    out: &mut W,
    case: RunCase,
) -> io::Result<()> {
    let Ok(text) = outcome(rt, alloc, case) else {
        return Err(io::ErrorKind::OutOfMemory.into());
    };
    out.write_all(text.as_str().as_bytes())
}

// The lines of a run's outcome.
#[tactic(auto, using(sinkhole_plugin::specs::SinkholeLaws::sinkholes_obey))]
fn outcome<R: Threads + Wait + Sync>(
    rt: &R,
    alloc: Global,
    case: RunCase,
) -> Result<String, CaseFault> {
    let RunCase {
        words,
        env,
        watch,
        sides,
        sinkholes,
    } = case;
    let watch = MemWatch::new(alloc, watch)?;
    let host = MemHost::new(alloc, unused_sides(alloc, sides)?, watch);
    let mut host = RoundHost::new(alloc, host, &env, port_of(&words))?;
    let extras = sinkholes_of(alloc, sinkholes)?;
    let report = run_with::<R, RoundHost, SinkholeBook, Sinkhole>(
        rt, alloc, &words, &env, &mut host, extras,
    );
    let mut text = String::new(alloc);
    put_status(alloc, &mut text, &report, &host)?;
    put_sides(alloc, &mut text, &report)?;
    put_watch(alloc, &mut text, &report)?;
    put_differences(alloc, &mut text, &report, &words, &env)?;
    text.push_str("end\n")?;
    Ok(text)
}

// So many sinkholes.
fn sinkholes_of(alloc: Global, count: u32) -> Result<Vec<Sinkhole>, NoMemory> {
    let mut extras = Vec::new(alloc);
    for _ in 0..count {
        extras.push(Sinkhole::new())?;
    }
    Ok(extras)
}

// The sides of scripts.
fn unused_sides(alloc: Global, scripts: Vec<SideScript>) -> Result<Vec<MemSide>, NoMemory>
    ensures { IfOk result (λ sides. All IsUnusedSide sides.items) }
{
    let mut sides = Vec::new(alloc);
    for script in scripts {
        sides.push(MemSide::new(alloc, script)?)?;
    }
    Ok(sides)
}

fn put_status(
    alloc: Global,
    text: &mut String,
    report: &Report<RoundHost, Sinkhole>,
    host: &RoundHost,
) -> Result<(), CaseFault> {
    let (name, number) = status_text(&report.status);
    put_line(text, format!(in alloc; "status {name} {number}")?)?;
    for told in host.host.lines().unwrap_or(&[]) {
        let field = bytes_field(alloc, told.line.as_slice())?;
        put_line(text, format!(in alloc; "told {}", field.as_str())?)?;
    }
    put_line(text, format!(in alloc; "published {}", report.published)?)
}

fn put_sides(
    alloc: Global,
    text: &mut String,
    report: &Report<RoundHost, Sinkhole>,
) -> Result<(), CaseFault> {
    for (number, done) in report.sides.iter().enumerate() {
        put_line(text, format!(in alloc; "journal {number}")?)?;
        for mark in done.side.side.journal().unwrap_or(&[]) {
            let mark = mark_text(alloc, mark)?;
            put_line(text, format!(in alloc; "mark {}", mark.as_str())?)?;
        }
    }
    Ok(())
}

fn put_watch(
    alloc: Global,
    text: &mut String,
    report: &Report<RoundHost, Sinkhole>,
) -> Result<(), CaseFault> {
    put_line(text, String::from_str(alloc, "watch")?)?;
    let Some(watch) = &report.watch else {
        return Ok(());
    };
    for mark in watch.watch.journal().unwrap_or(&[]) {
        let mark = watch_text(alloc, mark)?;
        put_line(text, format!(in alloc; "mark {}", mark.as_str())?)?;
    }
    Ok(())
}

// A line for each side some of whose turns the plain evaluator answers otherwise.
fn put_differences(
    alloc: Global,
    text: &mut String,
    report: &Report<RoundHost, Sinkhole>,
    words: &[Text],
    env: &[Pair],
) -> Result<(), CaseFault> {
    let Some(watch) = &report.watch else {
        return Ok(());
    };
    let sources = Sources {
        env,
        port: port_of(words),
        watch: watch.watch.journal().unwrap_or(&[]),
    };
    for (number, done) in report.sides.iter().enumerate() {
        let marks = done.side.side.journal().unwrap_or(&[]);
        let count = count_differences(alloc, &sources, marks)?;
        if 0 < count {
            put_line(text, format!(in alloc; "differs {number} {count}")?)?;
        }
    }
    Ok(())
}

// The port of keys that name none.
fn port_of(words: &[Text]) -> u16 {
    match read_command(words) {
        Some(Command::Serve(serve)) => serve.port,
        _ => DEFAULT_PORT,
    }
}

fn put_line(text: &mut String, line: String) -> Result<(), CaseFault> {
    text.push_str(line.as_str())?;
    text.push('\n')?;
    Ok(())
}

// The name of a status, and the number with which the program ends by it.
fn status_text(status: &Status) -> (&'static str, u8) {
    match status {
        Status::Ended => ("Ended", 0),
        Status::Refused(_) => ("Refused", 1),
        Status::StockShort { .. } => ("StockShort", 5),
        Status::Usage => ("Usage", 2),
        Status::ReadFailed(_) => ("ReadFailed", 3),
        Status::OpenFailed => ("OpenFailed", 3),
        Status::TellFailed => ("TellFailed", 3),
        Status::NoMemory => ("NoMemory", 4),
        Status::WorkerFailed => ("WorkerFailed", 6),
    }
}
