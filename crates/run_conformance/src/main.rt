//! Reads what whole runs are given from standard input, each from a line `case NAME` to `end`,
//! makes them over hosts in memory, and prints what each leaves. So what disagrees shows as a line
//! that differs.
#![tactic(auto)]

mod marks;
mod plain;
mod reports;
mod rounds;
mod runs;

use case_fields::CaseFault;
use runs::RunCase;
use std::alloc::Global;
use std::io::{BufRead, BufReader, BufWriter, Write};
use std::sync::Wait;
use std::thread::Threads;
use std::{io, str};

fn main(rt: HostRuntime) -> io::Result<()> {
    let alloc = rt.alloc();
    let mut lines = BufReader::new(alloc, rt.reader())?;
    let mut out = BufWriter::new(alloc, io::writer(&rt))?;
    print_all(&rt, alloc, &mut lines, &mut out)?;
    out.flush()
}

fn print_all<R: Threads + Wait + Sync, I: BufRead, W: Write>(
    rt: &R,
    alloc: Global,
    lines: &mut I,
    out: &mut W,
) -> io::Result<()> {
    let mut line = Vec::new(alloc);
    let mut case = None;
    for _ in 0..u64::MAX {
        line.clear();
        if lines.read_until(b'\n', &mut line)? == 0 {
            break;
        }
        let text = str::from_utf8(&line).unwrap_or("").trim_end();
        case = take_line(rt, alloc, out, case, text)?;
    }
    Ok(())
}

// Takes in a line, which begins a run or is of one.
fn take_line<R: Threads + Wait + Sync, W: Write>(
    rt: &R,
    alloc: Global,
    out: &mut W,
    case: Option<RunCase>,
    text: &str,
) -> io::Result<Option<RunCase>> {
    if let Some(name) = text.strip_prefix("case ") {
        writeln!(out, "case {name}")?;
        return Ok(Some(RunCase::new(alloc)));
    }
    match case {
        Some(case) => take_of_run(rt, alloc, out, case, text),
        None => {
            writeln!(out, "bad case")?;
            Ok(None)
        }
    }
}

// Takes in a line of a run, and prints the outcome once its last line has come.
fn take_of_run<R: Threads + Wait + Sync, W: Write>(
    rt: &R,
    alloc: Global,
    out: &mut W,
    mut case: RunCase,
    text: &str,
) -> io::Result<Option<RunCase>> {
    if text == "end" {
        reports::print(rt, alloc, out, case)?;
        return Ok(None);
    }
    match case.take(alloc, text) {
        Ok(()) => Ok(Some(case)),
        Err(CaseFault::Bad) => {
            writeln!(out, "bad case")?;
            Ok(None)
        }
        Err(CaseFault::NoMemory) => Err(io::ErrorKind::OutOfMemory.into()),
    }
}
