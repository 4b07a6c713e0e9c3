ghost use Rattle.std.specs.Prelude.{◌≡◌, ◌<◌, ◌^◌, codes, IfSome};
ghost use Rattle.hosts_plugin.specs.Options.{has_no_reverse, ttl_by, ttl_in, ttl_of};
ghost use Rattle.hosts_plugin.specs.Reading.{opened, seen_behind, seen_with};

use dns_data::{Line, Text, limit};
use numbers::read_digits;
use plugin_api::option_in;

/// What a line of the body is, by its first word.
#[derive(Clone, Copy, Debug, PartialEq, Eq)]
pub enum Opens {
    Ttl,
    NoReverse,
    Fallthrough,
    /// An address and its names.
    Addresses,
}

/// Which options stood in lines before.
#[derive(Clone, Copy, Debug, PartialEq, Eq)]
pub struct Seen {
    pub ttl: bool,
    pub no_reverse: bool,
    pub fallthrough: bool,
}

/// What a line is that begins with this word.
pub(crate) fn opened(word: &Text) -> Opens
    ensures { result ≡ opened word.now }
{
    match word.as_str() {
        "ttl" => Opens::Ttl,
        "no_reverse" => Opens::NoReverse,
        "fallthrough" => Opens::Fallthrough,
        _ => Opens::Addresses,
    }
}

/// The options behind a line.
pub(crate) fn seen_behind(seen: Seen, words: &[Text]) -> Seen
    ensures { result ≡ seen_behind seen words.now }
{
    match words.split_first() {
        Some((word, _)) => seen_with(seen, opened(word)),
        None => seen,
    }
}

fn seen_with(seen: Seen, opens: Opens) -> Seen
    ensures { result ≡ seen_with seen opens }
{
    match opens {
        Opens::Ttl => Seen { ttl: true, ..seen },
        Opens::NoReverse => Seen {
            no_reverse: true,
            ..seen
        },
        Opens::Fallthrough => Seen {
            fallthrough: true,
            ..seen
        },
        Opens::Addresses => seen,
    }
}

/// The TTL of all records.
pub(crate) fn ttl_of(lines: &[Line]) -> u32
    ensures value { result ≡ ttl_of lines.now }
    ensures small { result < 2 ^ 31 }
{
    let Some(words) = option_in(lines, b"ttl") else {
        return 3600;
    };
    match words.split_first() {
        Some((word, _)) => read_ttl(word).unwrap_or(3600),
        None => 3600,
    }
}

/// The TTL that a word spells.
pub(crate) fn read_ttl(word: &Text) -> Option<u32>
    ensures value { result ≡ ttl_in word.now }
    ensures small { IfSome result (λ ttl. ttl < 2 ^ 31) }
{
    let number = read_digits(word.as_str().as_bytes(), 10)?;
    if 0 < number && number < u64::from(limit::TTL_END) {
        return Some(number as u32);
    }
    None
}

/// Whether queries for names of addresses go on.
pub(crate) fn has_no_reverse(lines: &[Line]) -> bool
    ensures { result ≡ has_no_reverse lines.now }
{
    option_in(lines, b"no_reverse").is_some()
}
