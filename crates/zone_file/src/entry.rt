ghost use Rattle.std.specs.Prelude.{◌≡◌, ◌<◌, ◌^◌, ◌++◌, length, IfOk, OnOk};
ghost use Rattle.std.specs.Str.{is_utf8};
ghost use Rattle.zone_file.specs.Entries.{after, begins_blank, begun, broken, deepened};
ghost use Rattle.zone_file.specs.Entries.{ended_by, entries_of, entry_in, has_none, idle};

use crate::scan::{is_blank, scan};
use corefile_words::first_line;
use dns_data::{NoMemory, Seq};
use record_text::{RecordFault, Words};
use std::alloc::Global;
use std::marker::Model;

/// The words of a record or of a `$` line.
#[derive(Drop)]
pub(crate) struct Entry<'a> {
    /// The line of its first word, from 1.
    pub line: u32,
    /// Whether a blank stands in front of it.
    pub indented: bool,
    pub words: Words<'a>,
}

impl<'a> Model for Entry<'a> {
    ghost use Rattle.zone_file.specs.Entries.{EntryData};

    ghost Value = { EntryData };

    ghost view = { λ e. record { line = e.line; indented = e.indented; words = e.words } };
}

/// How the entries of a text end.
#[derive(Clone, Copy, Debug, PartialEq, Eq)]
pub(crate) enum End {
    /// All were read. The line is the last one.
    Ended { line: u32 },
    /// The entry of this line can't be read.
    Broken { line: u32 },
}

/// The entries of a text, and how they end.
#[derive(Drop)]
pub(crate) struct Entries<'a> {
    pub entries: Seq<Entry<'a>>,
    pub end: End,
}

impl<'a> Model for Entries<'a> {
    ghost use Rattle.zone_file.specs.Entries.{EntriesData};

    ghost Value = { EntriesData };

    ghost view = { λ e. record { entries = e.entries; end = e.end } };
}

/// An entry that goes on, without its words.
#[derive(Clone, Copy)]
pub(crate) struct Open {
    /// How many parentheses are open.
    pub depth: u32,
    /// The line in which it begins.
    pub first: u32,
    /// The line of its first word.
    pub line: u32,
    pub indented: bool,
}

/// The entries of a text.
#[tactic(auto, unfolding(crate::specs::Entries::entries_of))]
pub(crate) fn read_entries(alloc: Global, text: &[u8]) -> Result<Entries<'_>, NoMemory>
    requires { length text.now < 2 ^ 32 }
    ensures { IfOk result (λ entries. entries ≡ entries_of text.now) }
{
    let mut entries = Seq::new(alloc);
    let mut words = Seq::new(alloc);
    let mut opened = idle();
    let mut number = 0;
    let mut rest = text;
    while 0 < rest.len() {
        number += 1;
        let (line, behind) = first_line(rest);
        if !is_text(line) {
            return Ok(broken(entries, number));
        }
        opened = begun(number, line, opened, has_none(&words));
        match scan(words, opened.depth, line) {
            Ok((more, depth)) => {
                words = more;
                opened = deepened(opened, depth);
            }
            Err(fault) => match fault {
                RecordFault::Bad => return Ok(broken(entries, opened.line)),
                RecordFault::NoMemory => return Err(NoMemory),
            },
        }
        if opened.depth == 0 {
            push_entry(&mut entries, opened, words)?;
            words = Seq::new(alloc);
            opened = idle();
        }
        rest = behind;
    }
    Ok(ended(entries, number, opened, has_none(&words)))
}

// Adds an entry, where it has words.
fn push_entry<'a>(
    entries: &mut Seq<Entry<'a>>,
    opened: Open,
    words: Words<'a>,
) -> Result<(), NoMemory>
    ensures { OnOk result (entries.new ≡ entries.old ++ entry_in opened words.entry) }
{
    if words.len() == 0 {
        return Ok(());
    }
    entries.push(Entry {
        line: opened.line,
        indented: opened.indented,
        words,
    })
}

// The entries up to one that can't be read.
fn broken(entries: Seq<Entry<'_>>, line: u32) -> Entries<'_>
    ensures { result ≡ after entries.entry (broken line) }
{
    Entries {
        entries,
        end: End::Broken { line },
    }
}

// The entries of a text of so many lines, where an entry may be open.
fn ended(entries: Seq<Entry<'_>>, lines: u32, opened: Open, is_empty: bool) -> Entries<'_>
    ensures { result ≡ after entries.entry (ended_by lines opened is_empty) }
{
    if 0 < opened.depth {
        return broken(entries, if is_empty { opened.first } else { opened.line });
    }
    Entries {
        entries,
        end: End::Ended {
            line: if lines == 0 { 1 } else { lines },
        },
    }
}

// An entry at the start of a line.
fn begun(number: u32, line: &[u8], opened: Open, is_first: bool) -> Open
    ensures { result ≡ begun number line.now opened is_first }
{
    if opened.depth == 0 {
        return Open {
            depth: 0,
            first: number,
            line: number,
            indented: begins_blank(line),
        };
    }
    if is_first {
        return Open {
            depth: opened.depth,
            first: opened.first,
            line: number,
            indented: opened.indented,
        };
    }
    opened
}

fn deepened(opened: Open, depth: u32) -> Open
    ensures { result ≡ deepened opened depth }
{
    Open {
        depth,
        first: opened.first,
        line: opened.line,
        indented: opened.indented,
    }
}

fn begins_blank(line: &[u8]) -> bool
    ensures { result ≡ begins_blank line.now }
{
    0 < line.len() && is_blank(line[0])
}

fn has_none(words: &Words<'_>) -> bool
    ensures { result ≡ has_none words.now }
{
    words.len() == 0
}

// Whether a line is UTF-8.
fn is_text(line: &[u8]) -> bool
    ensures { result ≡ is_utf8 line.now }
{
    match std::str::from_utf8(line) {
        Ok(_) => true,
        Err(_) => false,
    }
}

fn idle() -> Open
    ensures { result ≡ idle }
{
    Open {
        depth: 0,
        first: 0,
        line: 0,
        indented: false,
    }
}
