//! Reads cases from standard input, one a line, `CALL ARGUMENTS = ANSWER`, makes each call, and
//! prints each line with the answer that it got. So what disagrees shows as a line that differs.
#![tactic(auto)]

mod addresses;
mod blocks;
mod case;
mod checks;
mod commands;
mod corefile;
mod digits;
mod fields;
mod loads;
mod messages;
mod names;
mod parsed;
mod patterns;
mod records;
mod streams;
mod zones;

use case::Case;
use case_fields::CaseFault;
use checks::Accepted;
use std::alloc::Global;
use std::io::{BufRead, BufReader, BufWriter, Write};
use std::{io, str};

fn main(rt: HostRuntime) -> io::Result<()> {
    let alloc = rt.alloc();
    let mut lines = BufReader::new(alloc, rt.reader())?;
    let mut out = BufWriter::new(alloc, io::writer(&rt))?;
    print_all(alloc, &mut lines, &mut out)?;
    out.flush()
}

fn print_all<I: BufRead, W: Write>(alloc: Global, lines: &mut I, out: &mut W) -> io::Result<()> {
    let mut line = Vec::new(alloc);
    let mut accepted = Accepted::none(alloc);
    for _ in 0..u64::MAX {
        line.clear();
        if lines.read_until(b'\n', &mut line)? == 0 {
            break;
        }
        // Behind ` = ` of a case there may be nothing, so its line is taken as it is.
        let text = str::from_utf8(&line).unwrap_or("");
        print(alloc, &mut accepted, out, text)?;
    }
    Ok(())
}

// Prints a line with its answer, or that it is no case.
fn print<W: Write>(
    alloc: Global,
    accepted: &mut Accepted,
    out: &mut W,
    line: &str,
) -> io::Result<()> {
    let Some(case) = Case::read(line) else {
        return writeln!(out, "bad case");
    };
    let mut text = String::new(alloc);
    match answer(alloc, &case, accepted, &mut text) {
        Ok(()) => writeln!(out, "{} = {}", case.question, text),
        Err(CaseFault::Bad) => writeln!(out, "bad case"),
        Err(CaseFault::NoMemory) => Err(io::ErrorKind::OutOfMemory.into()),
    }
}

// Makes a call, sought by the subject of its module, and adds its answer.
fn answer(
    alloc: Global,
    case: &Case<'_>,
    accepted: &mut Accepted,
    out: &mut String,
) -> Result<(), CaseFault> {
    if let Some(done) = of_values(alloc, case, out) {
        return done;
    }
    if let Some(done) = of_names(alloc, case, out) {
        return done;
    }
    if let Some(done) = of_messages(alloc, case, out) {
        return done;
    }
    if let Some(done) = of_zones(alloc, case, out) {
        return done;
    }
    of_corefiles(alloc, case, accepted, out)
}

fn of_values(alloc: Global, case: &Case<'_>, out: &mut String) -> Option<Result<(), CaseFault>> {
    Some(match case.call {
        "addr" => addresses::read(alloc, case, out),
        "addrtext" => addresses::print(alloc, case, out),
        "net" => addresses::net(alloc, case, out),
        "holds" => addresses::holds(alloc, case, out),
        "number" => digits::number(alloc, case, out),
        "duration" => digits::duration(alloc, case, out),
        "find" => patterns::find(alloc, case, out),
        "patterntext" => patterns::print(alloc, case, out),
        _ => return None,
    })
}

fn of_names(alloc: Global, case: &Case<'_>, out: &mut String) -> Option<Result<(), CaseFault>> {
    Some(match case.call {
        "name" => names::read(alloc, case, out),
        "nametext" => names::print(alloc, case, out),
        "lower" => names::lower(alloc, case, out),
        "same" => names::same(alloc, case, out),
        "within" => names::within(alloc, case, out),
        "reverse" => names::reverse(alloc, case, out),
        "reversed" => names::reversed(alloc, case, out),
        "zoneword" => names::zone(alloc, case, out),
        _ => return None,
    })
}

fn of_messages(alloc: Global, case: &Case<'_>, out: &mut String) -> Option<Result<(), CaseFault>> {
    Some(match case.call {
        "query" => messages::query(alloc, case, out),
        "asked" => messages::asked(alloc, case, out),
        "reply" => messages::reply(alloc, case, out),
        "cut" => messages::truncated(alloc, case, out),
        "stream" => streams::messages(alloc, case, out),
        _ => return None,
    })
}

fn of_zones(alloc: Global, case: &Case<'_>, out: &mut String) -> Option<Result<(), CaseFault>> {
    Some(match case.call {
        "record" => records::read(alloc, case, out),
        "kind" => records::read_type(alloc, case, out),
        "kindtext" => records::print_type(alloc, case, out),
        "rcodetext" => records::print_rcode(alloc, case, out),
        "zone" => zones::read(alloc, case, out),
        "lookup" => zones::answer(alloc, case, out),
        _ => return None,
    })
}

fn of_corefiles(
    alloc: Global,
    case: &Case<'_>,
    accepted: &mut Accepted,
    out: &mut String,
) -> Result<(), CaseFault> {
    match case.call {
        "cli" => commands::command(alloc, case, out),
        "load" => loads::data(alloc, case, out),
        "words" => corefile::words(alloc, case, out),
        "wants" => corefile::wanted(alloc, case, out),
        "blocks" => parsed::blocks(alloc, case, out),
        "check" => checks::check(alloc, case, accepted, out),
        "behind" => checks::check_behind(alloc, case, accepted, out),
        "rank" => blocks::order(alloc, case, out),
        "pick" => blocks::picked(alloc, case, out),
        _ => Err(CaseFault::Bad),
    }
}
