ghost use Rattle.std.specs.Prelude.{◌≡◌, ◌≤◌, ◌<◌, ◌+◌, ◌-◌, ◌^◌, [], ◌∷◌, length, take, vec_len};
ghost use Rattle.std.specs.Prelude.{◌++◌, OnOk, IfOk, IfNone, IfSome, IsFalse, IsTrue};
ghost use Rattle.dns_data.specs.Record.{IsProper};
ghost use Rattle.dns_write.specs.Writes.{Writes};
ghost use Rattle.dns_write.specs.Written.{empty, size, put, put_question, opt_bytes, header};
ghost use Rattle.dns_write.specs.Written.{truncated, kept};
ghost use Rattle.dns_data.specs.Message.{AreCodes};
ghost use Rattle.dns_write.specs.Assembled.{message_of, high_byte, low_byte};
ghost use Rattle.dns_write.specs.Putting.{total, QuestionFits, OptFits, PutWithin, PutLongest};
ghost use Rattle.dns_write.specs.Putting.{Sectioned};
ghost use Rattle.dns_write.specs.Tails.{Knows, Lends, PutsAll, lent_to};
ghost use Rattle.dns_write.specs.Timed.{all_timed, message_at, message_timed, timed};

use crate::tail::Tail;
use crate::ttls::{Own, Same, Ttls};
use crate::write_record::put_record;
use crate::writer::Writer;
use dns_data::limit::{MESSAGE_BYTES, UDP_BYTES};
use dns_data::{Buffer, Message, Name, NoMemory, Opt, Record, kind};
use dns_wire::Flags;
use std::alloc::Global;

// As many bytes as a message has room for from the start: most replies are shorter.
const ROOM: usize = 192;

// The length of an OPT record without data (RFC 6891, section 6.1.2).
const OPT_BYTES: usize = 11;

/// How many records of each section are written.
#[derive(Clone, Copy)]
pub struct Counts {
    pub answer: usize,
    pub authority: usize,
    pub additional: usize,
}

/// A message whose parts stand where they are: a question of this name, type and class, and the
/// records.
#[derive(Drop)]
pub struct MessageParts<'a> {
    pub flags: Flags,
    pub name: &'a Name,
    pub kind: u16,
    pub class: u16,
    pub answer: &'a [Record],
    pub authority: &'a [Record],
    pub additional: &'a [Record],
    pub opt: Option<Opt>,
}

/// Writes a message in the one form, with the longest prefix of its records with which it stays
/// within a limit in bytes. TC is set where a record of answer or authority is left out (RFC 2181,
/// section 9). The question's name, owner names and names in NS, CNAME, SOA, PTR and MX data are
/// compressed, and targets of SRV records aren't (RFC 2782).
pub fn write_message(alloc: Global, message: &Message, limit: u32) -> Result<Buffer, NoMemory>
    requires limit { (UDP_BYTES ≤ limit) × (limit ≤ MESSAGE_BYTES) }
    ensures { IfOk result (Writes message.now limit) }
{
    let parts = MessageParts {
        flags: Flags {
            id: message.id,
            qr: message.qr,
            opcode: message.opcode,
            aa: message.aa,
            tc: message.tc,
            rd: message.rd,
            ra: message.ra,
            ad: message.ad,
            cd: message.cd,
            rcode: message.rcode,
        },
        name: &message.question.name,
        kind: message.question.kind,
        class: message.question.class,
        answer: message.answer.as_slice(),
        authority: message.authority.as_slice(),
        additional: message.additional.as_slice(),
        opt: message.opt,
    };
    write_parts(alloc, Buffer::new(alloc), &parts, limit)
}

/// Writes a message by its parts as `write_message` does, in the memory of `room`, whose bytes go.
#[inline]
pub fn write_parts(
    alloc: Global,
    room: Buffer,
    parts: &MessageParts<'_>,
    limit: u32,
) -> Result<Buffer, NoMemory>
    requires limit { (UDP_BYTES ≤ limit) × (limit ≤ MESSAGE_BYTES) }
    requires codes { AreCodes parts.now.flags.opcode parts.now.flags.rcode }
    ensures { IfOk result (Writes (message_of parts.now) limit) }
{
    write_lent(alloc, room, parts, None, limit)
}

/// Writes a message by its parts as `write_parts` does. Where a tail is given, its records stand in
/// place of the parts' own in authority and additional.
#[inline]
pub fn write_lent<'a>(
    alloc: Global,
    room: Buffer,
    parts: &MessageParts<'a>,
    tail: Option<&'a Tail>,
    limit: u32,
) -> Result<Buffer, NoMemory>
    requires limit { (UDP_BYTES ≤ limit) × (limit ≤ MESSAGE_BYTES) }
    requires codes { AreCodes parts.now.flags.opcode parts.now.flags.rcode }
    ensures lent { IfSome tail.entry
        (λ t. IfOk result (Writes (lent_to (message_of parts.now) t.now) limit)) }
    ensures own { IfNone tail.entry (IfOk result (Writes (message_of parts.now) limit)) }
{
    let mut out = room.into_room();
    if out.len() < ROOM {
        out.resize(ROOM, 0)?;
    }
    write_behind(alloc, out, &whole_parts(parts, tail), &Own, tail, limit)
}

/// Writes a message by its parts as `write_parts` does, each record with this TTL in place of its
/// own: so an answer that was kept is written from where it stands.
#[inline]
pub fn write_aged(
    alloc: Global,
    room: Buffer,
    parts: &MessageParts<'_>,
    ttl: u32,
    limit: u32,
) -> Result<Buffer, NoMemory>
    requires ttl { ttl < 2 ^ 31 }
    requires limit { (UDP_BYTES ≤ limit) × (limit ≤ MESSAGE_BYTES) }
    requires codes { AreCodes parts.now.flags.opcode parts.now.flags.rcode }
    ensures { IfOk result (Writes (message_at ttl (message_of parts.now)) limit) }
{
    let mut out = room.into_room();
    if out.len() < ROOM {
        out.resize(ROOM, 0)?;
    }
    write_behind(alloc, out, parts, &Same::new(ttl), None, limit)
}

// The parts of a message with the records of a tail, where there is one.
#[inline(always)]
fn whole_parts<'a>(parts: &MessageParts<'a>, tail: Option<&'a Tail>) -> MessageParts<'a>
    ensures lends { IfSome tail.entry (λ t. Lends t.now (message_of result)) }
    ensures lent { IfSome tail.entry
        (λ t. message_of result ≡ lent_to (message_of parts.now) t.now) }
    ensures own { IfNone tail.entry (message_of result ≡ message_of parts.now) }
    ensures flags { result.flags ≡ parts.now.flags }
{
    let (authority, additional) = match tail {
        Some(tail) => (tail.authority(), tail.additional()),
        None => (parts.authority, parts.additional),
    };
    MessageParts {
        flags: parts.flags,
        name: parts.name,
        kind: parts.kind,
        class: parts.class,
        answer: parts.answer,
        authority,
        additional,
        opt: parts.opt,
    }
}

// Writes a message in place of whatever bytes there are. It is a function of its own so that the
// writer is made in one go.
#[inline(always)]
fn write_behind<T: Ttls>(
    alloc: Global,
    out: Vec<u8>,
    parts: &MessageParts<'_>,
    times: &T,
    tail: Option<&Tail>,
    limit: u32,
) -> Result<Buffer, NoMemory>
    requires tail { IfSome tail (λ t. Lends t.now (message_of parts.now)
        × (message_timed (T.ttl_of times.now) (message_of parts.now) ≡ message_of parts.now)) }
    requires room { 12 ≤ vec_len out }
    requires limit { (UDP_BYTES ≤ limit) × (limit ≤ MESSAGE_BYTES) }
    requires codes { AreCodes parts.now.flags.opcode parts.now.flags.rcode }
    ensures { IfOk result
        (Writes (message_timed (T.ttl_of times.now) (message_of parts.now)) limit) }
{
    let mut writer = Writer::over(alloc, out);
    let room_for_records = room_for_records(limit as usize, &parts.opt);
    put_question(&mut writer, parts)?;
    let kept = put_sections(&mut writer, parts, times, tail, room_for_records)?;
    put_opt(&mut writer, &parts.opt)?;
    Ok(writer.into_message(&header_bytes(parts, kept)))
}

// The limit without the OPT record that comes last.
#[tactic(auto, unfolding(crate::specs::Written::opt_bytes))]
fn room_for_records(limit: usize, opt: &Option<Opt>) -> usize
    requires { 11 ≤ limit }
    ensures sum { result + length (opt_bytes opt.now) ≡ limit }
    ensures most { limit ≤ result + 11 }
{
    match opt {
        Some(_) => limit - OPT_BYTES,
        None => limit,
    }
}

#[inline(always)]
#[tactic(auto, unfolding(crate::specs::Written::put_question))]
fn put_question<'a>(writer: &mut Writer<'a>, parts: &MessageParts<'a>) -> Result<(), NoMemory>
    requires { writer.old ≡ empty }
    ensures text { OnOk result
        (writer.new ≡ put_question writer.old (message_of parts.now).question) }
    ensures fits { OnOk result (QuestionFits (message_of parts.now).question) }
{
    let kind = parts.kind.to_be_bytes();
    let class = parts.class.to_be_bytes();
    writer.put_first_labels(parts.name)?;
    writer.put_few([0, kind[0], kind[1], class[0], class[1]])
}

// Puts records of one section after another, until one doesn't fit. Those behind the answer are put
// as a tail knows how, where there is one.
#[inline]
fn put_sections<'a, T: Ttls>(
    writer: &mut Writer<'a>,
    parts: &MessageParts<'a>,
    times: &T,
    tail: Option<&Tail>,
    room: usize,
) -> Result<Counts, NoMemory>
    requires room { room ≤ 65535 }
    requires fits { size writer.old ≤ room }
    requires known { Knows parts.now.name.now writer.old }
    requires tail { IfSome tail (λ t. Lends t.now (message_of parts.now)
        × (message_timed (T.ttl_of times.now) (message_of parts.now) ≡ message_of parts.now)) }
    ensures { IfOk result (λ kept. Sectioned writer.old writer.new
        (message_timed (T.ttl_of times.now) (message_of parts.now)) room kept) }
{
    let answer = put_records(writer, parts.answer, times, room)?;
    if answer < parts.answer.len() {
        return Ok(Counts {
            answer,
            authority: 0,
            additional: 0,
        });
    }
    if put_tail(writer, parts, tail, room) {
        return Ok(Counts {
            answer,
            authority: parts.authority.len(),
            additional: parts.additional.len(),
        });
    }
    let authority = put_records(writer, parts.authority, times, room)?;
    if authority < parts.authority.len() {
        return Ok(Counts {
            answer,
            authority,
            additional: 0,
        });
    }
    let additional = put_records(writer, parts.additional, times, room)?;
    Ok(Counts {
        answer,
        authority,
        additional,
    })
}

// Puts the records behind the answer at once, where a tail knows how, and says whether it did.
#[inline(always)]
fn put_tail(
    writer: &mut Writer<'_>,
    parts: &MessageParts<'_>,
    tail: Option<&Tail>,
    room: usize,
) -> bool
    requires room { room ≤ 65535 }
    requires fits { size writer.old ≤ room }
    requires known { Knows parts.now.name.now writer.old }
    requires tail { IfSome tail (λ t. Lends t.now (message_of parts.now)) }
    ensures put { IsTrue result → PutsAll writer.old writer.new
        ((message_of parts.now).authority ++ (message_of parts.now).additional) room }
    ensures some { IsTrue result → IfNone tail.entry ⊥ }
    ensures none { IsFalse result → writer.new ≡ writer.old }
{
    match tail {
        Some(tail) => tail.put(writer, parts.name, room),
        None => false,
    }
}

// Puts records until one doesn't fit, and gives how many were put. Mostly there are none, which
// takes no call.
#[inline(always)]
fn put_records<'a, T: Ttls>(
    writer: &mut Writer<'a>,
    records: &'a [Record],
    times: &T,
    room: usize,
) -> Result<usize, NoMemory>
    requires room { room ≤ 65535 }
    requires fits { size writer.old ≤ room }
    ensures { IfOk result (λ count. PutLongest writer.old writer.new
        (all_timed (T.ttl_of times.now) records.now) room count) }
{
    if records.len() == 0 {
        return Ok(0);
    }
    put_each(writer, records, times, room)
}

// Puts records until one doesn't fit, and gives how many were put.
#[inline(never)]
fn put_each<'a, T: Ttls>(
    writer: &mut Writer<'a>,
    records: &'a [Record],
    times: &T,
    room: usize,
) -> Result<usize, NoMemory>
    requires room { room ≤ 65535 }
    requires fits { size writer.old ≤ room }
    ensures { IfOk result (λ count. PutLongest writer.old writer.new
        (all_timed (T.ttl_of times.now) records.now) room count) }
{
    let mut count = 0;
    for rr in records {
        if !put_within(writer, rr, times, room)? {
            return Ok(count);
        }
        count += 1;
    }
    Ok(count)
}

// Puts a record where it fits, and takes it back where it doesn't.
fn put_within<'a, T: Ttls>(
    writer: &mut Writer<'a>,
    rr: &'a Record,
    times: &T,
    room: usize,
) -> Result<bool, NoMemory>
    requires { size writer.old ≤ room }
    ensures text { IfOk result (λ fits. PutWithin writer.old writer.new
        (timed (T.ttl_of times.now) rr.now) room fits) }
    ensures proper { IfOk result (λ _. IsProper (timed (T.ttl_of times.now) rr.now)) }
{
    let mark = writer.mark();
    put_record(writer, rr, times)?;
    if writer.len() <= room {
        return Ok(true);
    }
    writer.back_to(mark);
    Ok(false)
}

#[tactic(auto, unfolding(crate::specs::Written::opt_bytes))]
fn put_opt(writer: &mut Writer<'_>, opt: &Option<Opt>) -> Result<(), NoMemory>
    ensures text { OnOk result (writer.new ≡ put writer.old (opt_bytes opt.now)) }
    ensures fits { IfSome opt.now OptFits }
{
    match opt {
        None => Ok(()),
        Some(opt) => {
            let kind = kind::OPT.to_be_bytes();
            let size = opt.size.to_be_bytes();
            let flags = 128 * opt.dnssec as u8;
            writer.put_few([
                0,
                kind[0],
                kind[1],
                size[0],
                size[1],
                opt.ext,
                opt.version,
                flags,
                0,
                0,
                0,
            ])
        }
    }
}

// The two bytes of flags and codes in a header.
#[inline(always)]
fn flag_bytes(flags: Flags, is_truncated: bool) -> [u8; 2]
    requires { AreCodes flags.opcode flags.rcode }
    ensures { result ≡ high_byte flags is_truncated ∷ low_byte flags ∷ [] }
{
    let high = 128 * flags.qr as u8
        + 8 * flags.opcode
        + 4 * flags.aa as u8
        + 2 * (flags.tc || is_truncated) as u8
        + flags.rd as u8;
    let low = 128 * flags.ra as u8 + 32 * flags.ad as u8 + 16 * flags.cd as u8 + flags.rcode;
    [high, low]
}

// The header of a message of which so many records are written.
#[inline(always)]
#[tactic(auto, unfolding(crate::specs::Written::header, crate::specs::Written::truncated))]
fn header_bytes(parts: &MessageParts<'_>, kept: Counts) -> [u8; 12]
    requires codes { AreCodes parts.now.flags.opcode parts.now.flags.rcode }
    requires few { total kept < 2 ^ 16 - 1 }
    requires answer { kept.answer ≡ length (take (total kept) parts.now.answer.now) }
    requires authority { kept.authority
        ≡ length (take (total kept - length parts.now.answer.now) parts.now.authority.now) }
    requires additional { kept.additional
        ≡ length (take (total kept - length parts.now.answer.now - length parts.now.authority.now)
        parts.now.additional.now) }
    ensures text { result ≡ header (truncated (message_of parts.now) (total kept)) }
    ensures fits { parts.now.flags.id < 2 ^ 16 }
{
    let is_truncated = kept.answer < parts.answer.len() || kept.authority < parts.authority.len();
    let id = parts.flags.id.to_be_bytes();
    let flags = flag_bytes(parts.flags, is_truncated);
    let answer = (kept.answer as u16).to_be_bytes();
    let authority = (kept.authority as u16).to_be_bytes();
    let additional = (kept.additional as u16 + parts.opt.is_some() as u16).to_be_bytes();
    [
        id[0],
        id[1],
        flags[0],
        flags[1],
        0,
        1,
        answer[0],
        answer[1],
        authority[0],
        authority[1],
        additional[0],
        additional[1],
    ]
}
