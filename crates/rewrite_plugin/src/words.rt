ghost use Rattle.std.specs.Prelude.{◌≡◌, ◌++◌, IfOk, OnOk};
ghost use Rattle.rewrite_plugin.specs.Words.{dotted, match_word, matcher_of, patterns_if};
ghost use Rattle.rewrite_plugin.specs.Words.{seconds_in, small, sought_in, to_of};

use crate::matching::Matching;
use crate::rule::{Matcher, Seconds};
use crate::text::ends;
use dns_data::{Bytes, Copies, NoMemory, Seq, Text, limit};
use numbers::read_digits;
use std::alloc::Global;

/// A pattern, and the number of its line.
#[derive(Debug, Drop)]
pub struct PatternAt {
    pub line: u32,
    pub text: Text,
}

/// The match word behind the first word of a rule, or that there is none, and the words behind it.
pub(crate) fn sought_in(words: &[Text]) -> (Matching, &[Text])
    ensures by { result.0 ≡ (sought_in words.now).by }
    ensures words { result.1.now ≡ (sought_in words.now).words }
{
    let Some((word, behind)) = words.split_first() else {
        return (Matching::Exact, words);
    };
    let Some((_, others)) = behind.split_first() else {
        return (Matching::Exact, words);
    };
    if others.is_empty() {
        return (Matching::Exact, words);
    }
    match match_word(word) {
        Some(by) => (by, behind),
        None => (Matching::Exact, words),
    }
}

fn match_word(word: &Text) -> Option<Matching>
    ensures { result ≡ match_word word.now }
{
    match word.as_str() {
        "exact" => Some(Matching::Exact),
        "prefix" => Some(Matching::Prefix),
        "suffix" => Some(Matching::Suffix),
        "substring" => Some(Matching::Substring),
        "regex" => Some(Matching::Regex),
        _ => None,
    }
}

/// What a word says that is sought.
pub(crate) fn matcher_of(
    alloc: Global,
    by: Matching,
    word: &Text,
) -> Result<Matcher<Text>, NoMemory>
    ensures { IfOk result (λ matcher. matcher ≡ matcher_of by word.now) }
{
    match by {
        Matching::Exact => Ok(Matcher::Exact(dotted(alloc, word)?)),
        Matching::Prefix => Ok(Matcher::Prefix(small(alloc, word)?)),
        Matching::Suffix => Ok(Matcher::Suffix(dotted(alloc, word)?)),
        Matching::Substring => Ok(Matcher::Substring(small(alloc, word)?)),
        Matching::Regex => Ok(Matcher::Regex(word.copy(alloc)?)),
    }
}

/// What a word says that the matched part becomes.
pub(crate) fn to_of(alloc: Global, by: Matching, word: &Text) -> Result<Bytes, NoMemory>
    ensures { IfOk result (λ to. to ≡ to_of by word.now) }
{
    match by {
        Matching::Exact => dotted(alloc, word),
        Matching::Prefix => small(alloc, word),
        Matching::Suffix => dotted(alloc, word),
        Matching::Substring => small(alloc, word),
        Matching::Regex => dotted(alloc, word),
    }
}

// A word in small letters.
fn small(alloc: Global, word: &Text) -> Result<Bytes, NoMemory>
    ensures { IfOk result (λ bytes. bytes ≡ small word.now) }
{
    Ok(Bytes::of(word.as_str().as_bytes().to_ascii_lowercase(alloc)?))
}

/// A word in small letters, with a dot at its end.
pub(crate) fn dotted(alloc: Global, word: &Text) -> Result<Bytes, NoMemory>
    ensures { IfOk result (λ bytes. bytes ≡ dotted (small word.now)) }
{
    let mut bytes = small(alloc, word)?;
    if !ends(b".", bytes.as_slice()) {
        bytes.push(b'.')?;
    }
    Ok(bytes)
}

/// Keeps a word that is a pattern.
pub(crate) fn keep_pattern(
    alloc: Global,
    by: Matching,
    line: u32,
    word: &Text,
    found: &mut Seq<PatternAt>,
) -> Result<(), NoMemory>
    ensures { OnOk result (found.new ≡ found.old ++ patterns_if by line word.now) }
{
    match by {
        Matching::Regex => found.push(PatternAt {
            line,
            text: word.copy(alloc)?,
        }),
        Matching::Exact => Ok(()),
        Matching::Prefix => Ok(()),
        Matching::Suffix => Ok(()),
        Matching::Substring => Ok(()),
    }
}

/// The TTL that a word spells.
pub(crate) fn seconds_in(word: &Text) -> Option<Seconds>
    ensures { result ≡ seconds_in word.now }
{
    let number = read_digits(word.as_str().as_bytes(), 10)?;
    if number < u64::from(limit::TTL_END) {
        return Some(Seconds::of(number as u32));
    }
    None
}
