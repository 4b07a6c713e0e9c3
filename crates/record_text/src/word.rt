ghost use Rattle.std.specs.Prelude.{◌≡◌, ◌<◌, ◌≤◌, ◌==◌, ◌&&◌, not, length, IfSome};
ghost use Rattle.record_text.specs.Fields.{Answers, is_at_sign, is_origin, name_in};
ghost use Rattle.record_text.specs.Words.{closing_quote, ends, is_blank, is_ended};
ghost use Rattle.record_text.specs.Words.{plain_size, quoted_word, word_in, words_of};

use crate::{Form, Place, RecordFault};
use dns_data::{Copies, Name, NameFault, Seq};
use std::alloc::Global;
use std::marker::Model;

/// A word of a text, without the quotes in which it stood. Its escapes are those of the text.
#[derive(Debug, Drop)]
pub struct Word<'a> {
    pub text: &'a [u8],
    pub quoted: bool,
}

impl<'a> Model for Word<'a> {
    ghost use Rattle.record_text.specs.Words.{WordData};

    ghost Value = { WordData };

    ghost view = { λ w. record { text = w.text.now; quoted = w.quoted } };
}

pub type Words<'a> = Seq<Word<'a>>;

/// The first word of a text that doesn't begin with a blank, and how many of the bytes behind its
/// first are its own. None where a quote isn't closed, or the word doesn't end behind the quote.
pub fn first_word(text: &[u8], form: Form) -> Option<(Word<'_>, usize)>
    ensures value { result ≡ word_in form text.now }
    ensures inside { IfSome result (λ found. found.1 < length text.now) }
{
    let (first, behind) = text.split_first()?;
    if *first == b'"' {
        return quoted_word(behind, form);
    }
    let size = plain_size(behind, form, *first == b'\\');
    let word = Word {
        text: &text[..size + 1],
        quoted: false,
    };
    Some((word, size))
}

// The word behind an opening quote, and how many bytes it takes with its closing quote.
fn quoted_word(behind: &[u8], form: Form) -> Option<(Word<'_>, usize)>
    ensures value { result ≡ quoted_word form behind.now (closing_quote 34 behind.now) }
    ensures inside { IfSome result (λ found. found.1 ≤ length behind.now) }
{
    let size = closing_quote(behind)?;
    if !is_ended(&behind[size + 1..], form) {
        return None;
    }
    let word = Word {
        text: &behind[..size],
        quoted: true,
    };
    Some((word, size + 1))
}

// How many bytes stand before the next quote that has no backslash in front.
fn closing_quote(bytes: &[u8]) -> Option<usize>
    ensures value { result ≡ closing_quote 34 bytes.now }
    ensures inside { IfSome result (λ size. size < length bytes.now) }
{
    let mut before = b'"';
    for (at, byte) in bytes.iter().enumerate() {
        if *byte == b'"' && before != b'\\' {
            return Some(at);
        }
        before = *byte;
    }
    None
}

// How many bytes belong to a word without quotes. `taken`: a backslash stands in front.
fn plain_size(bytes: &[u8], form: Form, taken: bool) -> usize
    ensures value { result ≡ plain_size form taken bytes.now }
    ensures inside { result ≤ length bytes.now }
{
    let mut taken = taken;
    for (at, byte) in bytes.iter().enumerate() {
        if is_end(form, taken, *byte) {
            return at;
        }
        taken = takes_next(taken, *byte);
    }
    bytes.len()
}

fn is_end(form: Form, taken: bool, byte: u8) -> bool
    ensures { result ≡ (not taken && ends form byte) }
{
    !taken && ends(form, byte)
}

// Whether a byte takes the one behind it along.
fn takes_next(taken: bool, byte: u8) -> bool
    ensures { result ≡ (not taken && byte == 92) }
{
    !taken && byte == b'\\'
}

// Whether a quoted word can end before these bytes.
fn is_ended(bytes: &[u8], form: Form) -> bool
    ensures { result ≡ is_ended form bytes.now }
{
    bytes.len() == 0 || ends(form, bytes[0])
}

// Whether a byte ends a word without quotes.
fn ends(form: Form, byte: u8) -> bool
    ensures { result ≡ ends form byte }
{
    match form {
        Form::Alone => is_blank(byte),
        Form::ZoneFile => is_blank(byte) || byte == b';' || byte == b'(' || byte == b')',
    }
}

// Whether a byte parts words.
fn is_blank(byte: u8) -> bool
    ensures { result ≡ is_blank byte }
{
    byte == b' ' || byte == b'\t'
}

// As many words as take memory once. Most records have fewer.
const WORDS: usize = 8;

/// The words of a text that stands alone.
#[tactic(auto, unfolding(crate::specs::Words::words_of))]
pub(crate) fn read_words(alloc: Global, text: &[u8]) -> Result<Words<'_>, RecordFault>
    ensures { Answers (words_of text.now) result }
{
    let mut words = Seq::with_capacity(alloc, WORDS)?;
    let mut rest = text;
    while let Some((byte, behind)) = rest.split_first() {
        if is_blank(*byte) {
            rest = behind;
        } else {
            let Some((word, size)) = first_word(rest, Form::Alone) else {
                return Err(RecordFault::Bad);
            };
            words.push(word)?;
            rest = &behind[size..];
        }
    }
    Ok(words)
}

/// The name of a word: the origin for an `@` of a zone file without quotes, else the name that it
/// spells.
pub fn read_name(alloc: Global, word: &Word<'_>, place: &Place<'_>) -> Result<Name, RecordFault>
    ensures { Answers (name_in place.now word.now) result }
{
    if is_origin(place.form, word) {
        return Ok(place.origin.copy(alloc)?);
    }
    match Name::read(alloc, word.text, place.origin) {
        Ok(name) => Ok(name),
        Err(fault) => match fault {
            NameFault::Bad => Err(RecordFault::Bad),
            NameFault::NoMemory => Err(RecordFault::NoMemory),
        },
    }
}

// Whether a word stands for the origin.
fn is_origin(form: Form, word: &Word<'_>) -> bool
    ensures { result ≡ is_origin form word.now }
{
    match form {
        Form::Alone => false,
        Form::ZoneFile => !word.quoted && is_at_sign(word.text),
    }
}

fn is_at_sign(text: &[u8]) -> bool
    ensures { result ≡ is_at_sign text.now }
{
    text.len() == 1 && text[0] == b'@'
}
