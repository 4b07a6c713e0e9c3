ghost use Rattle.std.specs.Prelude.{Some, ◌≡◌, option_map, IfOk};
ghost use Rattle.type_names.specs.Kinds.{kind_of_text, kind_text, name_of, named, numbered};

use dns_data::{NoMemory, Text, kind};
use numbers::{put_decimal, read_below};
use std::alloc::Global;

/// The type that a text names: a type's name in any letters, or `TYPE` and a number. OPT has no
/// name.
#[tactic(auto, unfolding(crate::specs::Kinds::kind_of_text))]
pub fn read_kind(text: &[u8]) -> Option<u16>
    ensures { result ≡ kind_of_text text.now }
{
    match named(text) {
        Some(kind) => Some(kind),
        None => numbered(text),
    }
}

fn named(text: &[u8]) -> Option<u16>
    ensures { result ≡ named text.now }
{
    if text.eq_ignore_ascii_case(b"A") {
        return Some(kind::A);
    }
    if text.eq_ignore_ascii_case(b"NS") {
        return Some(kind::NS);
    }
    if text.eq_ignore_ascii_case(b"CNAME") {
        return Some(kind::CNAME);
    }
    if text.eq_ignore_ascii_case(b"SOA") {
        return Some(kind::SOA);
    }
    if text.eq_ignore_ascii_case(b"PTR") {
        return Some(kind::PTR);
    }
    if text.eq_ignore_ascii_case(b"HINFO") {
        return Some(kind::HINFO);
    }
    if text.eq_ignore_ascii_case(b"MX") {
        return Some(kind::MX);
    }
    if text.eq_ignore_ascii_case(b"TXT") {
        return Some(kind::TXT);
    }
    if text.eq_ignore_ascii_case(b"AAAA") {
        return Some(kind::AAAA);
    }
    if text.eq_ignore_ascii_case(b"SRV") {
        return Some(kind::SRV);
    }
    if text.eq_ignore_ascii_case(b"ANY") {
        return Some(kind::ANY);
    }
    if text.eq_ignore_ascii_case(b"CAA") {
        return Some(kind::CAA);
    }
    None
}

fn numbered(text: &[u8]) -> Option<u16>
    ensures { result ≡ numbered text.now }
{
    if text.len() < 4 {
        return None;
    }
    if !text[..4].eq_ignore_ascii_case(b"TYPE") {
        return None;
    }
    Some(read_below(&text[4..], 65536)? as u16)
}

/// A type, printed: its name where it has one, else `TYPE` and its number.
pub fn kind_text(alloc: Global, kind: u16) -> Result<Text, NoMemory>
    ensures text { IfOk result (λ text. text ≡ kind_text kind) }
    ensures read { IfOk result (λ text. kind_of_text text ≡ Some kind) }
{
    printed(alloc, kind)
}

#[tactic(auto, unfolding(crate::specs::Kinds::kind_text))]
fn printed(alloc: Global, kind: u16) -> Result<Text, NoMemory>
    ensures { IfOk result (λ text. text ≡ kind_text kind) }
{
    let mut text = String::with_capacity(alloc, 9)?;
    match name_of(kind) {
        Some(name) => text.push_str(name)?,
        None => {
            text.push_str("TYPE")?;
            put_decimal(&mut text, kind)?;
        }
    }
    Ok(Text::of(text))
}

fn name_of(kind: u16) -> Option<&'static str>
    ensures { option_map (λ name. name.now) result ≡ name_of kind }
{
    match kind {
        kind::A => Some("A"),
        kind::NS => Some("NS"),
        kind::CNAME => Some("CNAME"),
        kind::SOA => Some("SOA"),
        kind::PTR => Some("PTR"),
        kind::HINFO => Some("HINFO"),
        kind::MX => Some("MX"),
        kind::TXT => Some("TXT"),
        kind::AAAA => Some("AAAA"),
        kind::SRV => Some("SRV"),
        kind::ANY => Some("ANY"),
        kind::CAA => Some("CAA"),
        _ => None,
    }
}
