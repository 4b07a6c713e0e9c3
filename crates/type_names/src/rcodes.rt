ghost use Rattle.std.specs.Prelude.{◌≡◌, option_map, IfOk};
ghost use Rattle.type_names.specs.Rcodes.{name_of, rcode_of_text, rcode_text};

use dns_data::{NoMemory, Text, rcode};
use numbers::put_decimal;
use std::alloc::Global;

/// The RCODE of a name in capitals.
#[tactic(auto, unfolding(crate::specs::Rcodes::rcode_of_text))]
pub fn read_rcode(text: &[u8]) -> Option<u8>
    ensures { result ≡ rcode_of_text text.now }
{
    if text == b"NOERROR".as_slice() {
        return Some(rcode::NOERROR);
    }
    if text == b"FORMERR".as_slice() {
        return Some(rcode::FORMERR);
    }
    if text == b"SERVFAIL".as_slice() {
        return Some(rcode::SERVFAIL);
    }
    if text == b"NXDOMAIN".as_slice() {
        return Some(rcode::NXDOMAIN);
    }
    if text == b"NOTIMP".as_slice() {
        return Some(rcode::NOTIMP);
    }
    if text == b"REFUSED".as_slice() {
        return Some(rcode::REFUSED);
    }
    None
}

/// An RCODE, printed: its name where it has one, else `RCODE` and its number.
#[tactic(auto, unfolding(crate::specs::Rcodes::rcode_text))]
pub fn rcode_text(alloc: Global, rcode: u8) -> Result<Text, NoMemory>
    ensures { IfOk result (λ text. text ≡ rcode_text rcode) }
{
    let mut text = String::with_capacity(alloc, 8)?;
    match name_of(rcode) {
        Some(name) => text.push_str(name)?,
        None => {
            text.push_str("RCODE")?;
            put_decimal(&mut text, rcode.into())?;
        }
    }
    Ok(Text::of(text))
}

fn name_of(rcode: u8) -> Option<&'static str>
    ensures { option_map (λ name. name.now) result ≡ name_of rcode }
{
    match rcode {
        rcode::NOERROR => Some("NOERROR"),
        rcode::FORMERR => Some("FORMERR"),
        rcode::SERVFAIL => Some("SERVFAIL"),
        rcode::NXDOMAIN => Some("NXDOMAIN"),
        rcode::NOTIMP => Some("NOTIMP"),
        rcode::REFUSED => Some("REFUSED"),
        _ => None,
    }
}
