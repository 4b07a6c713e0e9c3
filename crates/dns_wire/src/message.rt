ghost use Rattle.std.specs.Prelude.{◌≤◌, [], length, IfOk, IfSome};
ghost use Rattle.dns_wire.specs.Records.{SectionsAt};
ghost use Rattle.dns_wire.specs.Spells.{QuestionAt, Spells, SpellsAlone};
ghost use Rattle.dns_wire.specs.Reads.{Reads, read_as};
ghost use Rattle.dns_wire.specs.Asked.{question_by};

use crate::WireFault;
use crate::header::flags_at;
use crate::name::read_first_name;
use crate::number::u16_at;
use crate::record::plain_opt_at;
use crate::section::{Sections, read_sections};
use dns_data::limit::HEADER_BYTES;
use dns_data::{Message, Name, Opt, Question, Seq};
use std::alloc::Global;

/// A question beside its name, and the offset behind it.
#[derive(Clone, Copy, Debug, PartialEq, Eq)]
pub struct Asking {
    pub kind: u16,
    pub class: u16,
    pub behind: usize,
}

/// Reads a message with one question, whatever its QR and its opcode are. Bytes behind it are
/// ignored.
#[inline]
pub fn read_message(alloc: Global, bytes: &[u8]) -> Result<Message, WireFault>
    requires { 12 ≤ length bytes.now }
    ensures spelt { Reads (Spells bytes.now) result }
    ensures alone { IfOk result (SpellsAlone bytes.now) }
{
    if u16_at(bytes, 4) != 1 {
        return Err(WireFault::Bad);
    }
    let mut name = Name::root(alloc);
    let asking = read_question(bytes, HEADER_BYTES, &mut name)?;
    let sections = match opt_alone(bytes, asking.behind) {
        Some(opt) => Sections {
            answer: Seq::new(alloc),
            authority: Seq::new(alloc),
            additional: Seq::new(alloc),
            opt,
        },
        None => read_sections(alloc, bytes, asking.behind)?,
    };
    let flags = flags_at(bytes);
    Ok(Message {
        id: flags.id,
        qr: flags.qr,
        opcode: flags.opcode,
        aa: flags.aa,
        tc: flags.tc,
        rd: flags.rd,
        ra: flags.ra,
        ad: flags.ad,
        cd: flags.cd,
        rcode: flags.rcode,
        question: Question {
            name,
            kind: asking.kind,
            class: asking.class,
        },
        answer: sections.answer,
        authority: sections.authority,
        additional: sections.additional,
        opt: sections.opt,
    })
}

/// The question at an offset right behind a header. Its name comes in place of another.
#[inline]
pub fn read_question(bytes: &[u8], at: usize, name: &mut Name) -> Result<Asking, WireFault>
    requires first { at ≤ 12 }
    requires inside { at ≤ length bytes.now }
    ensures spelt { Reads (λ found. QuestionAt bytes.now at found.0 found.1)
        (read_as (question_by name.new) result) }
    ensures inside { IfOk result (λ found. found.behind ≤ length bytes.now) }
{
    let middle = read_first_name(bytes, at, name)?;
    if bytes.len() - middle < 4 {
        return Err(WireFault::Bad);
    }
    Ok(Asking {
        kind: u16_at(bytes, middle),
        class: u16_at(bytes, middle + 2),
        behind: middle + 4,
    })
}

/// The OPT record of a message without other records, if it has one. Most queries are such
/// messages.
#[inline]
pub fn opt_alone(bytes: &[u8], at: usize) -> Option<Option<Opt>>
    requires long { 12 ≤ length bytes.now }
    requires inside { at ≤ length bytes.now }
    ensures { IfSome result (SectionsAt bytes.now at [] [] []) }
{
    if u16_at(bytes, 6) != 0 {
        return None;
    }
    if u16_at(bytes, 8) != 0 {
        return None;
    }
    match u16_at(bytes, 10) {
        0 => Some(None),
        1 => {
            let (opt, _) = plain_opt_at(bytes, at)?;
            Some(Some(opt))
        }
        _ => None,
    }
}
