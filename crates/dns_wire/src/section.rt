ghost use Rattle.std.specs.Prelude.{◌≤◌, length, None, IfOk};
ghost use Rattle.dns_wire.specs.Records.{SectionAt, SectionsAt};
ghost use Rattle.dns_wire.specs.Known.{AreKnown};
ghost use Rattle.dns_wire.specs.Reads.{Reads};

use crate::WireFault;
use crate::known::KnownNames;
use crate::number::u16_at;
use crate::record::{Part, read_part};
use dns_data::{Opt, Records, Seq};
use std::alloc::Global;

// The records of a section, its OPT record apart, and the offset behind them.
#[derive(Drop)]
struct Section {
    records: Records,
    opt: Option<Opt>,
    behind: usize,
}

/// The records of the three sections of a message, its OPT record apart.
#[derive(Drop)]
pub struct Sections {
    pub answer: Records,
    pub authority: Records,
    pub additional: Records,
    pub opt: Option<Opt>,
}

/// Reads the three sections that a header counts. Stays a call, so that what reads a plain query is
/// small.
#[inline(never)]
pub fn read_sections(alloc: Global, bytes: &[u8], start: usize) -> Result<Sections, WireFault>
    requires long { 12 ≤ length bytes.now }
    requires inside { start ≤ length bytes.now }
    ensures { Reads
        (λ s. SectionsAt bytes.now start s.answer s.authority s.additional s.opt) result }
{
    let mut known = KnownNames::new(alloc);
    let (answer, behind) = read_records(alloc, bytes, &mut known, start, u16_at(bytes, 6))?;
    let (authority, behind) = read_records(alloc, bytes, &mut known, behind, u16_at(bytes, 8))?;
    let Section {
        records: additional,
        opt,
        behind: _,
    } = read_section(alloc, bytes, &mut known, behind, u16_at(bytes, 10))?;
    Ok(Sections {
        answer,
        authority,
        additional,
        opt,
    })
}

// Reads so many records, at most one OPT record among them.
#[inline]
fn read_section(
    alloc: Global,
    bytes: &[u8],
    known: &mut KnownNames,
    start: usize,
    count: u16,
) -> Result<Section, WireFault>
    requires inside { start ≤ length bytes.now }
    requires known { AreKnown bytes.now known.old }
    ensures spelt { Reads
        (λ found. SectionAt bytes.now count start found.records found.opt found.behind) result }
    ensures inside { IfOk result (λ found. found.behind ≤ length bytes.now) }
    ensures known { AreKnown bytes.now known.new }
{
    if count == 0 {
        return Ok(Section {
            records: Seq::new(alloc),
            opt: None,
            behind: start,
        });
    }
    read_parts(alloc, bytes, known, start, count)
}

// Reads so many records one after the other. Stays a call, so that an empty section costs next to
// nothing.
#[inline(never)]
fn read_parts(
    alloc: Global,
    bytes: &[u8],
    known: &mut KnownNames,
    start: usize,
    count: u16,
) -> Result<Section, WireFault>
    requires inside { start ≤ length bytes.now }
    requires known { AreKnown bytes.now known.old }
    ensures spelt { Reads
        (λ found. SectionAt bytes.now count start found.records found.opt found.behind) result }
    ensures inside { IfOk result (λ found. found.behind ≤ length bytes.now) }
    ensures known { AreKnown bytes.now known.new }
{
    let mut records: Records = Seq::new(alloc);
    let mut opt = None;
    let mut at = start;
    let mut left = count;
    while 0 < left {
        let (part, behind) = read_part(alloc, bytes, known, at)?;
        match part {
            Part::Record(record) => records.push(record)?,
            Part::Opt(found) => {
                if opt.is_some() {
                    return Err(WireFault::Bad);
                }
                opt = Some(found);
            }
        }
        at = behind;
        left -= 1;
    }
    Ok(Section {
        records,
        opt,
        behind: at,
    })
}

// Reads so many records, none of which is an OPT record.
#[inline]
fn read_records(
    alloc: Global,
    bytes: &[u8],
    known: &mut KnownNames,
    start: usize,
    count: u16,
) -> Result<(Records, usize), WireFault>
    requires inside { start ≤ length bytes.now }
    requires known { AreKnown bytes.now known.old }
    ensures spelt { Reads (λ found. SectionAt bytes.now count start found.0 None found.1) result }
    ensures inside { IfOk result (λ found. found.1 ≤ length bytes.now) }
    ensures known { AreKnown bytes.now known.new }
{
    let section = read_section(alloc, bytes, known, start, count)?;
    if section.opt.is_some() {
        return Err(WireFault::Bad);
    }
    let Section {
        records,
        opt: _,
        behind,
    } = section;
    Ok((records, behind))
}
