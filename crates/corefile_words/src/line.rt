ghost use Rattle.std.specs.Prelude.{◌≡◌, ◌≤◌, ◌++◌, length, OnOk};
ghost use Rattle.std.specs.Str.{IsUtf8};
ghost use Rattle.corefile_words.specs.Lines.{before};
ghost use Rattle.corefile_words.specs.Words.{is_blank, ends_word, plain_word, quoted_word};
ghost use Rattle.corefile_words.specs.Words.{ReadsLine};

use crate::quoted::{quoted_size, unescaped};
use crate::variable::filled;
use crate::{Pair, Word, Words, WordsFault};
use dns_data::{NoMemory, Seq};
use std::alloc::Global;

/// The words of one line, which has this number.
pub(crate) fn read_line(
    alloc: Global,
    number: u32,
    line: &[u8],
    env: &[Pair],
) -> Result<Words, WordsFault>
    ensures { ReadsLine env.now number line.now result }
{
    match std::str::from_utf8(line) {
        Ok(_) => read_text(alloc, number, line, env),
        Err(_) => Err(WordsFault::NotText { line: number }),
    }
}

fn read_text(alloc: Global, number: u32, line: &[u8], env: &[Pair]) -> Result<Words, WordsFault>
    requires { IsUtf8 line.now }
    ensures { ReadsLine env.now number line.now result }
{
    let mut words = Seq::new(alloc);
    let mut rest = line;
    while let Some((byte, behind)) = rest.split_first() {
        if is_blank(*byte) {
            rest = behind;
        } else if *byte == b'#' {
            return Ok(words);
        } else if *byte == b'"' {
            let Some(size) = quoted_size(behind) else {
                return Err(WordsFault::OpenQuote { line: number });
            };
            let tail = &behind[size + 1..];
            if !ends_word(tail) {
                return Err(WordsFault::QuoteTail { line: number });
            }
            push_quoted(alloc, &mut words, &behind[..size], env)?;
            rest = tail;
        } else {
            let size = plain_size(behind);
            push_plain(alloc, &mut words, &rest[..size + 1], env)?;
            rest = &behind[size..];
        }
    }
    Ok(words)
}

// Whether a byte parts words.
fn is_blank(byte: u8) -> bool
    ensures { result ≡ is_blank byte }
{
    byte == b' ' || byte == b'\t'
}

// Whether a word can end before these bytes.
fn ends_word(bytes: &[u8]) -> bool
    ensures { result ≡ ends_word bytes.now }
{
    bytes.len() == 0 || is_blank(bytes[0])
}

// How many bytes stand before the first space or tab.
fn plain_size(bytes: &[u8]) -> usize
    ensures value { result ≡ length (before is_blank bytes.now) }
    ensures inside { result ≤ length bytes.now }
{
    bytes
        .iter()
        .position(|b| is_blank(*b))
        .unwrap_or(bytes.len())
}

// Adds a word without quotes, where variables leave something of it.
fn push_plain(alloc: Global, words: &mut Words, bytes: &[u8], env: &[Pair]) -> Result<(), NoMemory>
    requires { IsUtf8 bytes.now }
    ensures { OnOk result (words.new ≡ words.old ++ plain_word env.now bytes.now) }
{
    let text = filled(alloc, bytes, env)?;
    if text.as_str().len() == 0 {
        return Ok(());
    }
    let brace = bytes.len() == 1 && (bytes[0] == b'{' || bytes[0] == b'}');
    words.push(Word { text, brace })
}

// Adds a word that stood within quotes.
fn push_quoted(alloc: Global, words: &mut Words, bytes: &[u8], env: &[Pair]) -> Result<(), NoMemory>
    requires { IsUtf8 bytes.now }
    ensures { OnOk result (words.new ≡ words.old ++ quoted_word env.now bytes.now) }
{
    let text = filled(alloc, &unescaped(alloc, bytes)?, env)?;
    words.push(Word { text, brace: false })
}
