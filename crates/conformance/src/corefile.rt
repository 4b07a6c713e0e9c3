//! Corefiles: `words TEXT ENVIRONMENT`, `wants TEXT`.

use crate::case::Case;
use case_fields::{CaseFault, put_bytes, put_number, put_word, read_bytes, read_text};
use corefile_blocks::{Bundle, wants};
use corefile_words::{Pair, Pairs, Word, WordLine, WordLines, WordsFault, read_words};
use dns_data::{Bytes, FileTexts, Texts};
use std::alloc::Global;

/// `ok` and the lines of words, or `fault` and the line that an operator sees.
pub fn words(alloc: Global, case: &Case<'_>, out: &mut String) -> Result<(), CaseFault> {
    let (text, environment) = case.arguments()?;
    match words_of(alloc, text, environment)? {
        Ok(lines) => put_lines(alloc, out, &lines),
        Err(WordsFault::NotText { line }) => put_fault(alloc, out, line, "not UTF-8"),
        Err(WordsFault::OpenQuote { line }) => put_fault(alloc, out, line, "open quote"),
        Err(WordsFault::QuoteTail { line }) => put_fault(alloc, out, line, "text after quote"),
        Err(WordsFault::NoMemory) => Err(CaseFault::NoMemory),
    }
}

// What reading the words of two fields gives.
fn words_of(
    alloc: Global,
    text: &str,
    environment: &str,
) -> Result<Result<WordLines, WordsFault>, CaseFault> {
    let text = read_bytes(alloc, text)?;
    let env = read_environment(alloc, environment)?;
    if u32::MAX as usize <= text.len() {
        return Err(CaseFault::Bad);
    }
    Ok(read_words(alloc, &text, env.as_slice()))
}

/// The files that a Corefile wants first, where none of them was read yet.
pub fn wanted(alloc: Global, case: &Case<'_>, out: &mut String) -> Result<(), CaseFault> {
    let text = read_bytes(alloc, case.argument()?)?;
    if u32::MAX as usize <= text.len() {
        return Err(CaseFault::Bad);
    }
    let bundle = Bundle {
        conf: Bytes::of(text),
        env: Pairs::new(alloc),
        files: FileTexts::new(alloc),
    };
    put_names(alloc, out, &wants(alloc, &bundle)?)
}

fn put_names(alloc: Global, out: &mut String, names: &Texts) -> Result<(), CaseFault> {
    for (index, name) in names.as_slice().iter().enumerate() {
        if index != 0 {
            put_word(out, " ")?;
        }
        put_bytes(alloc, out, name.as_str().as_bytes())?;
    }
    Ok(())
}

/// The variables of a field: `NAME:VALUE` with commas between them, or `-`.
pub fn read_environment(alloc: Global, field: &str) -> Result<Pairs, CaseFault> {
    let mut pairs = Pairs::new(alloc);
    if field == "-" {
        return Ok(pairs);
    }
    for pair in field.split(',') {
        pairs.push(read_pair(alloc, pair)?)?;
    }
    Ok(pairs)
}

fn read_pair(alloc: Global, field: &str) -> Result<Pair, CaseFault> {
    let Some((name, value)) = field.split_once(':') else {
        return Err(CaseFault::Bad);
    };
    let name = read_text(alloc, name)?;
    let value = read_text(alloc, value)?;
    Ok(Pair { name, value })
}

fn put_lines(alloc: Global, out: &mut String, lines: &WordLines) -> Result<(), CaseFault> {
    put_word(out, "ok")?;
    for line in lines.as_slice() {
        put_line(alloc, out, line)?;
    }
    Ok(())
}

// Adds a line: its number, and its words with commas between them.
fn put_line(alloc: Global, out: &mut String, line: &WordLine) -> Result<(), CaseFault> {
    put_word(out, " ")?;
    put_number(out, u64::from(line.number))?;
    put_word(out, ":")?;
    for (index, word) in line.words.as_slice().iter().enumerate() {
        if index != 0 {
            put_word(out, ",")?;
        }
        put_read(alloc, out, word)?;
    }
    Ok(())
}

fn put_read(alloc: Global, out: &mut String, word: &Word) -> Result<(), CaseFault> {
    if word.brace {
        put_word(out, word.text.as_str())
    } else {
        put_bytes(alloc, out, word.text.as_str().as_bytes())
    }
}

fn put_fault(alloc: Global, out: &mut String, line: u32, why: &str) -> Result<(), CaseFault> {
    let text = format!(in alloc; "corefile line {line}: {why}")?;
    put_word(out, "fault ")?;
    put_bytes(alloc, out, text.as_str().as_bytes())
}
