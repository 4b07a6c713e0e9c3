ghost use Rattle.std.specs.Prelude.{◌≡◌, ◌<◌, ◌^◌, [], length, slice_index, IfOk, IfSome};
ghost use Rattle.std.specs.List.{list_all};
ghost use Rattle.record_text.specs.Heads.{BeginsWith, IsCut, IsHead, LeadsTo, address_in};
ghost use Rattle.record_text.specs.Heads.{if_form, is_simple, is_simple_byte};

use crate::read::behind_head;
use crate::{Word, Words};
use dns_data::{Addr, NoMemory, kind};
use std::alloc::Global;
use type_names::read_kind;

/// What stands between a printed name and an address: a TTL, the class and a type, each of which
/// may be left out but for the type.
#[derive(Clone, Copy, Debug, PartialEq, Eq)]
pub struct AddressHead {
    /// How many bytes stand in front of the address.
    pub size: usize,
    /// In seconds.
    pub ttl: u32,
    /// Whether the type is AAAA, and not A.
    pub six: bool,
}

/// What a text begins with that stands behind a printed name. None where it isn't of this form,
/// with one space in front of each word and behind the last. `ttl` is the TTL where none is
/// written.
pub fn read_address_head(
    alloc: Global,
    text: &[u8],
    ttl: u32,
) -> Result<Option<AddressHead>, NoMemory>
    requires { ttl < 2 ^ 31 }
    ensures { IfOk result (λ head. IfSome head (LeadsTo text.now ttl)) }
{
    let Some((blank, behind)) = text.split_first() else {
        return Ok(None);
    };
    if *blank != b' ' {
        return Ok(None);
    }
    let mut words = Words::new(alloc);
    let rest = cut_words(behind, &mut words)?;
    let Some((ttl, six)) = head_in(words.as_slice(), ttl) else {
        return Ok(None);
    };
    Ok(Some(AddressHead {
        size: text.len() - rest.len(),
        ttl,
        six,
    }))
}

// Adds the simple words that a text begins with, each with a space behind it, and gives the rest.
fn cut_words<'a>(text: &'a [u8], words: &mut Words<'a>) -> Result<&'a [u8], NoMemory>
    requires { words.old ≡ [] }
    ensures { IfOk result (λ rest. BeginsWith text.now words.new rest.now) }
{
    let mut rest = text;
    while let Some((word, behind)) = cut_word(rest) {
        words.push(Word {
            text: word,
            quoted: false,
        })?;
        rest = behind;
    }
    Ok(rest)
}

// The simple word at the head of a text, and what stands behind its space.
fn cut_word(text: &[u8]) -> Option<(&[u8], &[u8])>
    ensures value { IfSome result (λ cut. IsCut text.now cut.0.now cut.1.now) }
    ensures shorter { IfSome result (λ cut. length cut.1.now < length text.now) }
{
    let size = space_in(text)?;
    let word = &text[..size];
    if !is_simple(word) {
        return None;
    }
    Some((word, &text[size + 1..]))
}

// The place of a space.
fn space_in(text: &[u8]) -> Option<usize>
    ensures inside { IfSome result (λ at. at < length text.now) }
    ensures value { IfSome result (λ at. slice_index text.now at ≡ 32) }
{
    for (at, byte) in text.iter().enumerate() {
        if *byte == b' ' {
            return Some(at);
        }
    }
    None
}

// The TTL, and whether the type is AAAA, where words are a TTL, the class and a type of addresses.
fn head_in(words: &[Word<'_>], given: u32) -> Option<(u32, bool)>
    requires { given < 2 ^ 31 }
    ensures { IfSome result (λ head. IsHead given words.now head.0 head.1) }
{
    let (ttl, rest) = behind_head(words, given);
    let (word, behind) = rest.split_first()?;
    if !behind.is_empty() {
        return None;
    }
    match read_kind(word.text)? {
        kind::A => Some((ttl, false)),
        kind::AAAA => Some((ttl, true)),
        _ => None,
    }
}

/// Whether a text is one word, without quotes and escapes.
pub fn is_simple(text: &[u8]) -> bool
    ensures { result ≡ is_simple text.now }
{
    0 < text.len() && are_simple(text)
}

fn are_simple(text: &[u8]) -> bool
    ensures { result ≡ list_all is_simple_byte text.now }
{
    for byte in text {
        if !is_simple_byte(*byte) {
            return false;
        }
    }
    true
}

#[inline]
fn is_simple_byte(byte: u8) -> bool
    ensures { result ≡ is_simple_byte byte }
{
    b'"' < byte && byte != b'\\'
}

/// The address that a text spells, where it has the form of the type: AAAA, or A.
pub fn read_address(six: bool, text: &[u8]) -> Option<Addr>
    ensures { result ≡ address_in six text.now }
{
    if_form(six, Addr::read(text)?)
}

fn if_form(six: bool, addr: Addr) -> Option<Addr>
    ensures { result ≡ if_form six addr }
{
    match addr {
        Addr::V4(_) => {
            if six {
                return None;
            }
            Some(addr)
        }
        Addr::V6(_) => {
            if six {
                return Some(addr);
            }
            None
        }
    }
}
