ghost use Rattle.std.specs.Prelude.{◌≡◌, false, IfOk};
ghost use Rattle.dns_data.specs.{IsFormed, is_known_type};
ghost use Rattle.record_text.specs.Fields.{Answers};
ghost use Rattle.record_text.specs.Rows.{a_row, aaaa_row, bytes_row, caa_row, data_of, hinfo_row};
ghost use Rattle.record_text.specs.Rows.{is_mark, mx_row, name_row, opaque_row, soa_row, srv_row};
ghost use Rattle.record_text.specs.Rows.{txt_row};
ghost use Rattle.dns_data.specs.declared.record.Rdata.TheVariants as rdata;

use crate::fields::Fields;
use crate::hex::read_hex;
use crate::string::read_string;
use crate::{Place, RecordFault, Word};
use dns_data::limit::RDATA_BYTES;
use dns_data::{Rdata, Soa, Strings, kind};
use numbers::read_below;
use std::alloc::Global;

/// The data of a type that words spell.
#[tactic(auto, unfolding(crate::specs::Rows::data_of, dns_data::specs::Record::is_known_type))]
pub(crate) fn read_data(
    alloc: Global,
    place: &Place<'_>,
    kind: u16,
    words: &[Word<'_>],
) -> Result<Rdata, RecordFault>
    ensures value { Answers (data_of place.now kind words.now) result }
    ensures form { IfOk result (λ made. IsFormed made) }
{
    match kind {
        kind::A => read_a(words),
        kind::NS => read_ns(alloc, place, words),
        kind::CNAME => read_cname(alloc, place, words),
        kind::SOA => read_soa(alloc, place, words),
        kind::PTR => read_ptr(alloc, place, words),
        kind::HINFO => read_hinfo(alloc, words),
        kind::MX => read_mx(alloc, place, words),
        kind::TXT => read_txt(alloc, words),
        kind::AAAA => read_aaaa(words),
        kind::SRV => read_srv(alloc, place, words),
        kind::CAA => read_caa(alloc, words),
        kind::OPT => Err(RecordFault::Bad),
        kind::ANY => Err(RecordFault::Bad),
        _ => read_opaque(alloc, kind, words),
    }
}

fn read_a(words: &[Word<'_>]) -> Result<Rdata, RecordFault>
    ensures value { Answers (a_row words.now) result }
    ensures form { IfOk result (λ made. IsFormed made) }
{
    let mut fields = Fields::new(words);
    let addr = fields.v4()?;
    fields.end(Rdata::A(addr))
}

fn read_aaaa(words: &[Word<'_>]) -> Result<Rdata, RecordFault>
    ensures value { Answers (aaaa_row words.now) result }
    ensures form { IfOk result (λ made. IsFormed made) }
{
    let mut fields = Fields::new(words);
    let addr = fields.v6()?;
    fields.end(Rdata::Aaaa(addr))
}

fn read_ns(alloc: Global, place: &Place<'_>, words: &[Word<'_>]) -> Result<Rdata, RecordFault>
    ensures value { Answers (name_row rdata.Ns place.now words.now) result }
    ensures form { IfOk result (λ made. IsFormed made) }
{
    let mut fields = Fields::new(words);
    let name = fields.name(alloc, place)?;
    fields.end(Rdata::Ns(name))
}

fn read_cname(alloc: Global, place: &Place<'_>, words: &[Word<'_>]) -> Result<Rdata, RecordFault>
    ensures value { Answers (name_row rdata.Cname place.now words.now) result }
    ensures form { IfOk result (λ made. IsFormed made) }
{
    let mut fields = Fields::new(words);
    let name = fields.name(alloc, place)?;
    fields.end(Rdata::Cname(name))
}

fn read_ptr(alloc: Global, place: &Place<'_>, words: &[Word<'_>]) -> Result<Rdata, RecordFault>
    ensures value { Answers (name_row rdata.Ptr place.now words.now) result }
    ensures form { IfOk result (λ made. IsFormed made) }
{
    let mut fields = Fields::new(words);
    let name = fields.name(alloc, place)?;
    fields.end(Rdata::Ptr(name))
}

fn read_soa(alloc: Global, place: &Place<'_>, words: &[Word<'_>]) -> Result<Rdata, RecordFault>
    ensures value { Answers (soa_row place.now words.now) result }
    ensures form { IfOk result (λ made. IsFormed made) }
{
    let mut fields = Fields::new(words);
    let mname = fields.name(alloc, place)?;
    let rname = fields.name(alloc, place)?;
    let serial = fields.u32()?;
    let refresh = fields.ttl()?;
    let retry = fields.ttl()?;
    let expire = fields.ttl()?;
    let minimum = fields.ttl()?;
    fields.end(Rdata::Soa(Soa {
        mname,
        rname,
        serial,
        refresh,
        retry,
        expire,
        minimum,
    }))
}

fn read_hinfo(alloc: Global, words: &[Word<'_>]) -> Result<Rdata, RecordFault>
    ensures value { Answers (hinfo_row words.now) result }
    ensures form { IfOk result (λ made. IsFormed made) }
{
    let mut fields = Fields::new(words);
    let cpu = fields.string(alloc)?;
    let os = fields.string(alloc)?;
    fields.end(Rdata::Hinfo(cpu, os))
}

fn read_mx(alloc: Global, place: &Place<'_>, words: &[Word<'_>]) -> Result<Rdata, RecordFault>
    ensures value { Answers (mx_row place.now words.now) result }
    ensures form { IfOk result (λ made. IsFormed made) }
{
    let mut fields = Fields::new(words);
    let preference = fields.u16()?;
    let exchange = fields.name(alloc, place)?;
    fields.end(Rdata::Mx(preference, exchange))
}

fn read_srv(alloc: Global, place: &Place<'_>, words: &[Word<'_>]) -> Result<Rdata, RecordFault>
    ensures value { Answers (srv_row place.now words.now) result }
    ensures form { IfOk result (λ made. IsFormed made) }
{
    let mut fields = Fields::new(words);
    let priority = fields.u16()?;
    let weight = fields.u16()?;
    let port = fields.u16()?;
    let target = fields.name(alloc, place)?;
    fields.end(Rdata::Srv(priority, weight, port, target))
}

fn read_caa(alloc: Global, words: &[Word<'_>]) -> Result<Rdata, RecordFault>
    ensures value { Answers (caa_row words.now) result }
    ensures form { IfOk result (λ made. IsFormed made) }
{
    let mut fields = Fields::new(words);
    let flags = fields.u8()?;
    let tag = fields.tag(alloc)?;
    let value = fields.string(alloc)?;
    fields.end(Rdata::Caa(flags, tag, value))
}

fn read_txt(alloc: Global, words: &[Word<'_>]) -> Result<Rdata, RecordFault>
    ensures value { Answers (txt_row words.now) result }
    ensures form { IfOk result (λ made. IsFormed made) }
{
    if words.is_empty() {
        return Err(RecordFault::Bad);
    }
    let mut strings = Strings::new(alloc);
    let mut size = 0;
    for word in words {
        let string = read_string(alloc, word.text)?;
        size += string.len() + 1;
        if RDATA_BYTES < size {
            return Err(RecordFault::Bad);
        }
        strings.push(string)?;
    }
    Ok(Rdata::Txt(strings))
}

fn read_opaque(alloc: Global, kind: u16, words: &[Word<'_>]) -> Result<Rdata, RecordFault>
    requires { is_known_type kind ≡ false }
    ensures value { Answers (opaque_row kind words.now) result }
    ensures form { IfOk result (λ made. IsFormed made) }
{
    let Some((mark, words)) = words.split_first() else {
        return Err(RecordFault::Bad);
    };
    if !is_mark(mark.text) {
        return Err(RecordFault::Bad);
    }
    read_bytes(alloc, kind, words)
}

// The bytes behind `\#`.
fn read_bytes(alloc: Global, kind: u16, words: &[Word<'_>]) -> Result<Rdata, RecordFault>
    requires { is_known_type kind ≡ false }
    ensures value { Answers (bytes_row kind words.now) result }
    ensures form { IfOk result (λ made. IsFormed made) }
{
    let Some((size, digits)) = words.split_first() else {
        return Err(RecordFault::Bad);
    };
    let Some(size) = read_below(size.text, 65536) else {
        return Err(RecordFault::Bad);
    };
    let bytes = read_hex(alloc, digits)?;
    if bytes.len() as u64 != size {
        return Err(RecordFault::Bad);
    }
    Ok(Rdata::Opaque(kind, bytes))
}

// Whether a text is `\#`.
fn is_mark(text: &[u8]) -> bool
    ensures { result ≡ is_mark text.now }
{
    text.len() == 2 && text[0] == b'\\' && text[1] == b'#'
}
