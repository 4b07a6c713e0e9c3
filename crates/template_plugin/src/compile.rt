ghost use Rattle.std.specs.Prelude.{◌≡◌, ◌++◌, IfOk, OnOk, map, option_map, string_bytes};
ghost use Rattle.pattern.specs.Texts.{is_named, number_in};
ghost use Rattle.regex.specs.Names.{names_of};
ghost use Rattle.regex.specs.Strings.{regex_names};
ghost use Rattle.template_plugin.specs.Parts.{compiled, compiled_place, compiled_text};
ghost use Rattle.template_plugin.specs.Parts.{compiled_texts, named_part, numbers_of, sections_of};
ghost use Rattle.template_plugin.specs.Made.{pattern_sections};
ghost use Rattle.template_plugin.specs.Words.{all_words};

use crate::part::Part;
use crate::piece::{Piece, Place};
use crate::piece_read::read_pieces;
use crate::record_parts::{RecordParts, Sections};
use crate::words::words_after;
use dns_data::{Bytes, Line, NoMemory, Seq, Text};
use pattern::Pattern;
use shared_patterns::SharedPattern;
use std::alloc::Global;

/// The texts of the sections, for each pattern.
pub(crate) fn all_sections(
    alloc: Global,
    patterns: &[SharedPattern],
    lines: &[Line],
) -> Result<Seq<Sections>, NoMemory>
    ensures { IfOk result
        (λ sections. sections ≡ map (pattern_sections lines.now) patterns.now) }
{
    let mut sections = Seq::with_capacity(alloc, patterns.len())?;
    let mut rest = patterns;
    while let Some((pattern, behind)) = rest.split_first() {
        sections.push(sections_of(alloc, Some(pattern.pattern()), lines)?)?;
        rest = behind;
    }
    Ok(sections)
}

/// The texts of the sections, with the numbers of groups that a pattern gives.
pub(crate) fn sections_of(
    alloc: Global,
    pattern: Option<&Pattern>,
    lines: &[Line],
) -> Result<Sections, NoMemory>
    ensures { IfOk result (λ sections. sections
        ≡ sections_of (numbers_of (option_map (λ p. p.now) pattern.entry)) lines.now) }
{
    Ok(Sections {
        answer: section_of(alloc, pattern, b"answer", lines)?,
        authority: section_of(alloc, pattern, b"authority", lines)?,
        additional: section_of(alloc, pattern, b"additional", lines)?,
    })
}

// The texts of a section.
fn section_of(
    alloc: Global,
    pattern: Option<&Pattern>,
    section: &[u8],
    lines: &[Line],
) -> Result<Seq<RecordParts>, NoMemory>
    ensures { IfOk result (λ texts. texts
        ≡ compiled_texts (numbers_of (option_map (λ p. p.now) pattern.entry))
        (all_words section.now lines.now)) }
{
    let mut texts = Seq::new(alloc);
    let mut rest = lines;
    while let Some((line, behind)) = rest.split_first() {
        let words = words_after(section, line.words.as_slice());
        add_texts(alloc, pattern, words, &mut texts)?;
        rest = behind;
    }
    Ok(texts)
}

// Adds the texts of words.
fn add_texts(
    alloc: Global,
    pattern: Option<&Pattern>,
    words: &[Text],
    texts: &mut Seq<RecordParts>,
) -> Result<(), NoMemory>
    ensures { OnOk result (texts.new ≡ texts.old
        ++ compiled_texts (numbers_of (option_map (λ p. p.now) pattern.entry)) words.now) }
{
    let mut rest = words;
    while let Some((word, behind)) = rest.split_first() {
        texts.push(text_of(alloc, pattern, word.as_str().as_bytes())?)?;
        rest = behind;
    }
    Ok(())
}

// A text as it is filled in.
fn text_of(alloc: Global, pattern: Option<&Pattern>, text: &[u8]) -> Result<RecordParts, NoMemory>
    ensures { IfOk result (λ parts. parts
        ≡ compiled_text (numbers_of (option_map (λ p. p.now) pattern.entry)) text.now) }
{
    match read_pieces(alloc, text)? {
        Some(pieces) => RecordParts::new(alloc, parts_of(alloc, pattern, pieces.as_slice())?),
        None => RecordParts::new(alloc, Seq::new(alloc)),
    }
}

fn parts_of(
    alloc: Global,
    pattern: Option<&Pattern>,
    pieces: &[Piece],
) -> Result<Seq<Part>, NoMemory>
    ensures { IfOk result (λ parts. parts
        ≡ map (compiled (numbers_of (option_map (λ p. p.now) pattern.entry))) pieces.now) }
{
    let mut parts = Seq::with_capacity(alloc, pieces.len())?;
    let mut rest = pieces;
    while let Some((piece, behind)) = rest.split_first() {
        parts.push(part_of(alloc, pattern, piece)?)?;
        rest = behind;
    }
    Ok(parts)
}

fn part_of(alloc: Global, pattern: Option<&Pattern>, piece: &Piece) -> Result<Part, NoMemory>
    ensures { IfOk result (λ part. part
        ≡ compiled (numbers_of (option_map (λ p. p.now) pattern.entry)) piece.now) }
{
    match piece {
        Piece::Bytes(bytes) => Ok(Part::Bytes(Bytes::from_slice(alloc, bytes.as_slice())?)),
        Piece::Place(place) => place_part(alloc, pattern, place),
    }
}

fn place_part(alloc: Global, pattern: Option<&Pattern>, place: &Place) -> Result<Part, NoMemory>
    ensures { IfOk result (λ part. part
        ≡ compiled_place (numbers_of (option_map (λ p. p.now) pattern.entry)) place.now) }
{
    match place {
        Place::Name => Ok(Part::Name),
        Place::Zone => Ok(Part::Zone),
        Place::Type => Ok(Part::Type),
        Place::Class => Ok(Part::Bytes(Bytes::from_slice(alloc, b"IN")?)),
        Place::Remote => Ok(Part::Remote),
        Place::Named(name) => Ok(named_part(alloc, number_of(pattern, name.as_slice()))),
        Place::Number(number) => Ok(Part::Group(*number as usize)),
    }
}

// The group of a number; nothing, where there is none.
fn named_part(alloc: Global, number: Option<usize>) -> Part
    ensures { result ≡ named_part number }
{
    match number {
        Some(number) => Part::Group(number),
        None => Part::Bytes(Bytes::new(alloc)),
    }
}

// The number of the group that has a name.
fn number_of(pattern: Option<&Pattern>, name: &[u8]) -> Option<usize>
    ensures { result ≡ numbers_of (option_map (λ p. p.now) pattern.entry) name.now }
{
    match pattern {
        Some(pattern) => number_in(pattern, name),
        None => None,
    }
}

fn number_in(pattern: &Pattern, name: &[u8]) -> Option<usize>
    ensures { result ≡ number_in (regex_names pattern.now) name.now }
{
    first_named(pattern.as_regex().capture_names(), name)
}

// The number of the first group of a name.
fn first_named(names: &[Option<String>], name: &[u8]) -> Option<usize>
    ensures { result ≡ number_in (names_of names.now) name.now }
{
    let mut number = 0;
    let mut rest = names;
    while let Some((group, behind)) = rest.split_first() {
        if is_named(group, name) {
            return Some(number);
        }
        number += 1;
        rest = behind;
    }
    None
}

fn is_named(group: &Option<String>, name: &[u8]) -> bool
    ensures { result ≡ is_named name.now (option_map string_bytes group.now) }
{
    match group {
        Some(own) => own.as_str().as_bytes() == name,
        None => false,
    }
}
