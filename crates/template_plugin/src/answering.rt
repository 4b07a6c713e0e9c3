ghost use Rattle.std.specs.Prelude.{◌≡◌, ◌<◌, ◌≤◌, ℕ, [], drop, false, length, IfOk};
ghost use Rattle.std.specs.Prelude.{OnOk};
ghost use Rattle.dns_data.specs.Message.{no_answer};
ghost use Rattle.record_text.specs.{record_spelt};
ghost use Rattle.template_plugin.specs.Heads.{BeginsAddress};
ghost use Rattle.template_plugin.specs.Made.{HasParts, Says, filling_data};
ghost use Rattle.template_plugin.specs.Parts.{answer_by, full_answer, joined, record_by};
ghost use Rattle.template_plugin.specs.Parts.{records_by, whole, with_one};
ghost use Rattle.template_plugin.specs.Template.{default_ttl, said_of, searched};

use crate::filling::{Filling, fill_in};
use crate::part::Part;
use crate::record_parts::{DEFAULT_TTL, RecordParts, Sections};
use dns_data::{Bytes, Name, NoMemory, RecordRoom, Slot, are_bytes};
use record_text::{AddressHead, RecordFault, is_simple, read_address, read_record};
use std::alloc::Global;

/// What `template` says of a query: it is answered, it goes on, or it ends with SERVFAIL, since no
/// pattern matches, or a text makes no record.
#[derive(Clone, Copy, Debug, PartialEq, Eq)]
pub enum TemplateSay {
    Reply,
    Next,
    NoMatch,
    NotRecord,
}

/// Answers with the records of texts, where each makes one. `text` is room for one of them.
pub(crate) fn answer(
    alloc: Global,
    sections: &Sections,
    filling: &Filling<'_, '_, '_, '_>,
    rcode: u8,
    text: &mut Bytes,
    slot: &mut Slot,
) -> Result<TemplateSay, NoMemory>
    requires parts { HasParts filling.now }
    requires name { filling.now.name.now ≡ searched filling.now.query.now.name }
    requires clear { slot.old ≡ no_answer }
    requires small { rcode < 16 }
    ensures { IfOk result (λ say.
        Says say (said_of (answer_by (filling_data filling.now) sections.now rcode))
        slot.new) }
{
    if !push_sections(alloc, sections, filling, text, slot)? {
        slot.clear();
        return Ok(TemplateSay::NotRecord);
    }
    slot.rcode = rcode;
    slot.aa = true;
    Ok(TemplateSay::Reply)
}

// Adds the records of the sections, where each text makes one.
fn push_sections(
    alloc: Global,
    sections: &Sections,
    filling: &Filling<'_, '_, '_, '_>,
    text: &mut Bytes,
    slot: &mut Slot,
) -> Result<bool, NoMemory>
    requires parts { HasParts filling.now }
    requires name { filling.now.name.now ≡ searched filling.now.query.now.name }
    requires clear { slot.old ≡ no_answer }
    ensures value { IfOk result (λ full. (rcode : ℕ) →
        answer_by (filling_data filling.now) sections.now rcode ≡ full_answer full rcode slot.new) }
    ensures flags { OnOk result ((slot.new.ra ≡ false) × (slot.new.tc ≡ false)) }
{
    let answer = sections.answer.as_slice();
    if !push_records(alloc, answer, filling, text, &mut slot.answer)? {
        return Ok(false);
    }
    let authority = sections.authority.as_slice();
    if !push_records(alloc, authority, filling, text, &mut slot.authority)? {
        return Ok(false);
    }
    let additional = sections.additional.as_slice();
    push_records(alloc, additional, filling, text, &mut slot.additional)
}

// Adds the records of texts, where each makes one.
fn push_records(
    alloc: Global,
    texts: &[RecordParts],
    filling: &Filling<'_, '_, '_, '_>,
    text: &mut Bytes,
    out: &mut RecordRoom,
) -> Result<bool, NoMemory>
    requires parts { HasParts filling.now }
    requires name { filling.now.name.now ≡ searched filling.now.query.now.name }
    ensures { IfOk result (λ full.
        joined out.old (records_by (filling_data filling.now) texts.now) ≡ whole full out.new) }
{
    let mut rest = texts;
    while let Some((parts, behind)) = rest.split_first() {
        if !push_filled(alloc, parts, filling, text, out)? {
            return Ok(false);
        }
        rest = behind;
    }
    Ok(true)
}

// Adds the record of a text, where it makes one.
fn push_filled(
    alloc: Global,
    parts: &RecordParts,
    filling: &Filling<'_, '_, '_, '_>,
    text: &mut Bytes,
    out: &mut RecordRoom,
) -> Result<bool, NoMemory>
    requires parts { HasParts filling.now }
    requires name { filling.now.name.now ≡ searched filling.now.query.now.name }
    ensures { IfOk result (λ full.
        with_one out.old (record_by (filling_data filling.now) parts.now) ≡ whole full out.new) }
{
    match parts.head() {
        Some(head) => push_headed(alloc, parts.as_slice(), head, filling, text, out),
        None => push_read(alloc, parts.as_slice(), filling, text, out),
    }
}

// The same for a text that begins with the name, which needn't be read anew: what stands behind the
// head is read alone, where it is one word.
fn push_headed(
    alloc: Global,
    parts: &[Part],
    head: AddressHead,
    filling: &Filling<'_, '_, '_, '_>,
    text: &mut Bytes,
    out: &mut RecordRoom,
) -> Result<bool, NoMemory>
    requires head { BeginsAddress parts.now head }
    requires parts { HasParts filling.now }
    requires name { filling.now.name.now ≡ searched filling.now.query.now.name }
    ensures { IfOk result (λ full.
        with_one out.old (record_by (filling_data filling.now) parts.now) ≡ whole full out.new) }
{
    text.clear();
    fill_in(alloc, behind_name(parts), filling, text)?;
    let word = behind(text.as_slice(), head.size);
    if !is_simple(word) {
        return push_read(alloc, parts, filling, text, out);
    }
    let owner = filling.query.name.lower(alloc)?;
    are_bytes(owner.as_wire());
    let Some(addr) = read_address(head.six, word) else {
        return Ok(false);
    };
    out.push_address(alloc, &owner, head.ttl, addr)?;
    Ok(true)
}

// The parts behind the name, which is the second.
fn behind_name(parts: &[Part]) -> &[Part]
    requires { 2 ≤ length parts.now }
    ensures { result.now ≡ drop 2 parts.now }
{
    &parts[2..]
}

fn behind(text: &[u8], size: usize) -> &[u8]
    requires { size ≤ length text.now }
    ensures { result.now ≡ drop size text.now }
{
    &text[size..]
}

// Adds the record of a text that is read as a whole.
fn push_read(
    alloc: Global,
    parts: &[Part],
    filling: &Filling<'_, '_, '_, '_>,
    text: &mut Bytes,
    out: &mut RecordRoom,
) -> Result<bool, NoMemory>
    requires parts { HasParts filling.now }
    ensures { IfOk result (λ full.
        with_one out.old (record_by (filling_data filling.now) parts.now) ≡ whole full out.new) }
{
    text.clear();
    fill_in(alloc, parts, filling, text)?;
    push_record(alloc, text.as_slice(), out)
}

// Adds the record that a text spells, where it spells one.
fn push_record(alloc: Global, text: &[u8], out: &mut RecordRoom) -> Result<bool, NoMemory>
    ensures { IfOk result (λ full.
        with_one out.old (record_spelt text.now [] default_ttl) ≡ whole full out.new) }
{
    match read_record(alloc, text, &Name::root(alloc), DEFAULT_TTL) {
        Ok(made) => {
            out.push(alloc, &made)?;
            Ok(true)
        }
        Err(RecordFault::Bad) => Ok(false),
        Err(RecordFault::NoMemory) => Err(NoMemory),
    }
}
