ghost use Rattle.std.specs.Prelude.{◌≤◌, length};
ghost use Rattle.dns_wire.specs.Asked.{AsksThis, ReadsAsked, ReadsAskedInto, asked_by};
ghost use Rattle.dns_wire.specs.Reads.{Reads, read_as};

use crate::header::{check_query, flags_at, head_at};
use crate::message::{opt_alone, read_question};
use crate::number::u16_at;
use crate::section::read_sections;
use crate::{QueryFault, WireFault};
use dns_data::limit::HEADER_BYTES;
use dns_data::{Name, Opt, Question};
use std::alloc::Global;

/// What an answer needs of a query. Its records are read, and none is kept but OPT.
#[derive(Debug, Drop)]
pub struct Asked {
    pub id: u16,
    pub rd: bool,
    pub cd: bool,
    pub question: Question,
    pub opt: Option<Opt>,
}

/// What an answer needs of a query beside the question's name.
#[derive(Clone, Copy, Debug, PartialEq, Eq)]
pub struct AskedBeside {
    pub id: u16,
    pub rd: bool,
    pub cd: bool,
    pub kind: u16,
    pub class: u16,
    pub opt: Option<Opt>,
}

/// Reads a query as `read_query` does, and keeps what an answer needs of it.
pub fn read_asked(alloc: Global, bytes: &[u8]) -> Result<Asked, QueryFault>
    ensures { ReadsAsked bytes.now result }
{
    let mut name = Name::root(alloc);
    match read_asked_into(alloc, bytes, &mut name) {
        Ok(beside) => Ok(Asked {
            id: beside.id,
            rd: beside.rd,
            cd: beside.cd,
            question: Question {
                name,
                kind: beside.kind,
                class: beside.class,
            },
            opt: beside.opt,
        }),
        Err(fault) => Err(fault),
    }
}

/// Reads a query as `read_asked` does. The question's name comes in place of another, in the room
/// that is there.
#[inline]
pub fn read_asked_into(
    alloc: Global,
    bytes: &[u8],
    name: &mut Name,
) -> Result<AskedBeside, QueryFault>
    ensures { ReadsAskedInto bytes.now name.new result }
{
    if let Err(fault) = check_query(bytes) {
        return Err(fault);
    }
    match asked_in(alloc, bytes, name) {
        Ok(beside) => Ok(beside),
        Err(WireFault::Bad) => Err(QueryFault::FormErr(head_at(bytes))),
        Err(WireFault::NoMemory) => Err(QueryFault::NoMemory),
    }
}

// What a message with one question asks, whatever its QR and its opcode are.
#[inline]
fn asked_in(alloc: Global, bytes: &[u8], name: &mut Name) -> Result<AskedBeside, WireFault>
    requires { 12 ≤ length bytes.now }
    ensures { Reads (AsksThis bytes.now) (read_as (asked_by name.new) result) }
{
    if u16_at(bytes, 4) != 1 {
        return Err(WireFault::Bad);
    }
    let asking = read_question(bytes, HEADER_BYTES, name)?;
    let opt = match opt_alone(bytes, asking.behind) {
        Some(opt) => opt,
        None => read_sections(alloc, bytes, asking.behind)?.opt,
    };
    let flags = flags_at(bytes);
    Ok(AskedBeside {
        id: flags.id,
        rd: flags.rd,
        cd: flags.cd,
        kind: asking.kind,
        class: asking.class,
        opt,
    })
}
