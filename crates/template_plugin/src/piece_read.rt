ghost use Rattle.std.specs.Prelude.{◌≡◌, ◌+◌, ◌≤◌, length, option_map, IfOk, IfSome, IsTrue};
ghost use Rattle.std.specs.List.{list_all};
ghost use Rattle.template_plugin.specs.Pieces.{begins_twice, behind, cut_twice, is_group_name};
ghost use Rattle.template_plugin.specs.Pieces.{is_name_byte, is_space, match_place, named};
ghost use Rattle.template_plugin.specs.Pieces.{number_place, pieces_of, place_in, rest_of};
ghost use Rattle.template_plugin.specs.Pieces.{trimmed, twice_at, word_of, word_place};

use crate::piece::{Piece, Place};
use dns_data::{Bytes, NoMemory, Seq};
use numbers::read_digits;
use std::alloc::Global;

/// The pieces of a text; None where what stands behind a `{{` is no place.
#[tactic(auto, unfolding(crate::specs::Pieces::pieces_of))]
pub(crate) fn read_pieces(alloc: Global, text: &[u8]) -> Result<Option<Seq<Piece>>, NoMemory>
    ensures { IfOk result (λ pieces. pieces ≡ pieces_of text.now) }
{
    let mut pieces = Seq::new(alloc);
    let mut rest = text;
    while let Some((front, behind)) = cut_twice(rest, b'{') {
        let Some((inside, after)) = cut_twice(behind, b'}') else {
            return Ok(None);
        };
        let Some(place) = read_place(alloc, inside)? else {
            return Ok(None);
        };
        pieces.push(Piece::Bytes(Bytes::from_slice(alloc, front)?))?;
        pieces.push(Piece::Place(place))?;
        rest = after;
    }
    pieces.push(Piece::Bytes(Bytes::from_slice(alloc, rest)?))?;
    Ok(Some(pieces))
}

// What stands before the first place at which a byte stands twice, and behind it.
fn cut_twice(text: &[u8], byte: u8) -> Option<(&[u8], &[u8])>
    ensures cut { option_map (λ cut. (cut.0.now, cut.1.now)) result ≡ cut_twice byte text.now }
    ensures shorter { IfSome result (λ cut. length cut.1.now + 2 ≤ length text.now) }
{
    let at = twice_at(text, byte)?;
    Some((&text[..at], &text[at + 2..]))
}

// How many bytes stand before the first place at which a byte stands twice.
fn twice_at(text: &[u8], byte: u8) -> Option<usize>
    ensures value { result ≡ twice_at byte text.now }
    ensures inside { IfSome result (λ at. at + 2 ≤ length text.now) }
{
    for at in 0..text.len() {
        if begins_twice(&text[at..], byte) {
            return Some(at);
        }
    }
    None
}

fn begins_twice(text: &[u8], byte: u8) -> bool
    ensures value { result ≡ begins_twice byte text.now }
    ensures inside { IsTrue result → 2 ≤ length text.now }
{
    1 < text.len() && text[0] == byte && text[1] == byte
}

// The place that a text between `{{` and `}}` names.
fn read_place(alloc: Global, text: &[u8]) -> Result<Option<Place>, NoMemory>
    ensures { IfOk result (λ place. place ≡ place_in text.now) }
{
    let (word, rest) = first_word(trimmed(text));
    if rest.is_empty() {
        return word_place(alloc, word);
    }
    if word == b"index".as_slice() {
        return Ok(match_place(rest));
    }
    Ok(None)
}

// The place of a word.
fn word_place(alloc: Global, word: &[u8]) -> Result<Option<Place>, NoMemory>
    ensures { IfOk result (λ place. place ≡ word_place word.now) }
{
    if word == b".Name".as_slice() {
        return Ok(Some(Place::Name));
    }
    if word == b".Zone".as_slice() {
        return Ok(Some(Place::Zone));
    }
    if word == b".Type".as_slice() {
        return Ok(Some(Place::Type));
    }
    if word == b".Class".as_slice() {
        return Ok(Some(Place::Class));
    }
    if word == b".Remote".as_slice() {
        return Ok(Some(Place::Remote));
    }
    match behind(word, b".Group.") {
        Some(name) => group_place(alloc, name),
        None => Ok(None),
    }
}

// The group that a name names.
fn group_place(alloc: Global, name: &[u8]) -> Result<Option<Place>, NoMemory>
    ensures { IfOk result (λ place. place ≡ named name.now) }
{
    if is_group_name(name) {
        return Ok(Some(Place::Named(Bytes::from_slice(alloc, name)?)));
    }
    Ok(None)
}

fn is_group_name(name: &[u8]) -> bool
    ensures { result ≡ is_group_name name.now }
{
    0 < name.len() && are_name_bytes(name)
}

fn are_name_bytes(name: &[u8]) -> bool
    ensures { result ≡ list_all is_name_byte name.now }
{
    for byte in name {
        if !is_name_byte(*byte) {
            return false;
        }
    }
    true
}

// The place of words behind `index`.
fn match_place(text: &[u8]) -> Option<Place>
    ensures { result ≡ match_place text.now }
{
    let (word, rest) = first_word(text);
    if word != b".Match".as_slice() {
        return None;
    }
    let (digits, rest) = first_word(rest);
    number_place(digits, rest)
}

fn number_place(digits: &[u8], rest: &[u8]) -> Option<Place>
    ensures { result ≡ number_place digits.now rest.now }
{
    if !rest.is_empty() {
        return None;
    }
    let number = read_digits(digits, 10)?;
    Some(Place::Number(number))
}

// What stands behind a text with which another one begins.
fn behind<'t>(text: &'t [u8], front: &[u8]) -> Option<&'t [u8]>
    ensures { option_map (λ rest. rest.now) result ≡ behind front.now text.now }
{
    let mut left = front;
    let mut rest = text;
    while let Some((wanted, behind)) = left.split_first() {
        let (byte, others) = rest.split_first()?;
        if *wanted != *byte {
            return None;
        }
        left = behind;
        rest = others;
    }
    Some(rest)
}

// The first word of a text, and what stands behind it and behind the spaces there.
fn first_word(text: &[u8]) -> (&[u8], &[u8])
    ensures word { result.0.now ≡ word_of text.now }
    ensures rest { result.1.now ≡ rest_of text.now }
{
    let (word, rest) = text.split_at(word_size(text));
    (word, trimmed(rest))
}

// How many bytes stand before the first space.
fn word_size(text: &[u8]) -> usize
    ensures value { result ≡ length (word_of text.now) }
    ensures inside { result ≤ length text.now }
{
    text.iter()
        .position(|byte| is_space(*byte))
        .unwrap_or(text.len())
}

// A text without the spaces with which it begins.
fn trimmed(text: &[u8]) -> &[u8]
    ensures { result.now ≡ trimmed text.now }
{
    let mut rest = text;
    while let Some((byte, behind)) = rest.split_first() {
        if !is_space(*byte) {
            return rest;
        }
        rest = behind;
    }
    rest
}

fn is_space(byte: u8) -> bool
    ensures { result ≡ is_space byte }
{
    byte == b' '
}

// Whether the name of a group may have the byte.
fn is_name_byte(byte: u8) -> bool
    ensures { result ≡ is_name_byte byte }
{
    byte.is_ascii_alphanumeric() || byte == b'_'
}
