//! The lines of the directive.
ghost use Rattle.std.specs.Prelude.{◌≡◌, ◌<◌, ◌^◌};
ghost use Rattle.dns64_plugin.specs.Options.{has_option, line_prefix, opened, prefix_by_words};
ghost use Rattle.dns64_plugin.specs.Options.{seen_behind, seen_first, seen_with};

use crate::prefixes::{WELL_KNOWN, read_prefix};
use dns_data::{Line, Text};
use plugin_api::option_in;

/// What a line of the body is, by its first word.
#[derive(Clone, Copy, Debug, PartialEq, Eq)]
pub enum Opens {
    Prefix,
    AllowIpv4,
    Ptr,
    /// No option.
    Nothing,
}

/// What stood before.
#[derive(Clone, Copy, Debug, PartialEq, Eq)]
pub struct Seen {
    pub prefix: bool,
    pub allow_ipv4: bool,
    pub ptr: bool,
}

/// What a line is that begins with this word.
pub(crate) fn opened(word: &Text) -> Opens
    ensures { result ≡ opened word.now }
{
    match word.as_str() {
        "prefix" => Opens::Prefix,
        "allow_ipv4" => Opens::AllowIpv4,
        "ptr" => Opens::Ptr,
        _ => Opens::Nothing,
    }
}

/// What stands before the lines, behind these words.
pub(crate) fn seen_first(words: &[Text]) -> Seen
    ensures { result ≡ seen_first words.now }
{
    Seen {
        prefix: !words.is_empty(),
        allow_ipv4: false,
        ptr: false,
    }
}

/// What stood before the lines behind one.
pub(crate) fn seen_behind(seen: Seen, words: &[Text]) -> Seen
    ensures { result ≡ seen_behind seen words.now }
{
    match words.split_first() {
        Some((word, _)) => seen_with(seen, opened(word)),
        None => seen,
    }
}

fn seen_with(mut seen: Seen, opens: Opens) -> Seen
    ensures { result ≡ seen_with seen opens }
{
    match opens {
        Opens::Prefix => seen.prefix = true,
        Opens::AllowIpv4 => seen.allow_ipv4 = true,
        Opens::Ptr => seen.ptr = true,
        Opens::Nothing => {}
    }
    seen
}

/// The upper 96 bits of the prefix.
pub(crate) fn prefix_by(words: &[Text], lines: &[Line]) -> u128
    ensures value { result ≡ prefix_by_words words.now lines.now }
    ensures small { result < 2 ^ 96 }
{
    match words.split_first() {
        Some((word, _)) => read_prefix(word).unwrap_or(WELL_KNOWN),
        None => line_prefix(lines),
    }
}

fn line_prefix(lines: &[Line]) -> u128
    ensures value { result ≡ line_prefix lines.now }
    ensures small { result < 2 ^ 96 }
{
    let Some(words) = option_in(lines, b"prefix") else {
        return WELL_KNOWN;
    };
    match words.split_first() {
        Some((word, _)) => read_prefix(word).unwrap_or(WELL_KNOWN),
        None => WELL_KNOWN,
    }
}

/// Whether a line has an option.
pub(crate) fn has_option(lines: &[Line], option: &[u8]) -> bool
    ensures { result ≡ has_option option.now lines.now }
{
    option_in(lines, option).is_some()
}
