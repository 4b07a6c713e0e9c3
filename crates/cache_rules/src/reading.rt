//! What is wrong with a directive.
ghost use Rattle.std.specs.Prelude.{◌≡◌, IfOk};
ghost use Rattle.cache_rules.specs.Reading.{class_why, disable_why, least_why, line_why};
ghost use Rattle.cache_rules.specs.Reading.{lines_fault, none_seen, seen_behind};
ghost use Rattle.cache_rules.specs.Reading.{seen_with, seen_without, servfail_why, times_why};
ghost use Rattle.cache_rules.specs.Reading.{ttl_why, zones_behind};

use crate::options::{
    Choice, Opens, Seen, chosen, is_digits, opened, read_capacity, read_seconds, read_ttl,
    words_of_zones,
};
use dns_data::{Line, Names, NoMemory, Text};
use plugin_api::{DirectiveFault, DirectiveWhy, empty_why, once};
use std::alloc::Global;
use zone_words::read_zones;

/// Why a TTL in front isn't one.
pub(crate) fn ttl_why(words: &[Text]) -> Option<DirectiveWhy>
    ensures { result ≡ ttl_why words.now }
{
    let (word, _) = words.split_first()?;
    if is_digits(word.as_str().as_bytes()) && read_ttl(word).is_none() {
        return Some(DirectiveWhy::Number);
    }
    None
}

/// The zones that the words name, or else these; None where a word names none.
pub(crate) fn zones_behind(
    alloc: Global,
    zones: &Names,
    words: &[Text],
) -> Result<Option<Names>, NoMemory>
    ensures { IfOk result (λ read. read ≡ zones_behind zones.now words.now) }
{
    read_zones(alloc, zones, words_of_zones(words))
}

/// The fault of the first line that doesn't fit.
pub(crate) fn lines_fault(lines: &[Line]) -> Option<DirectiveFault>
    ensures { result ≡ lines_fault none_seen lines.now }
{
    let mut seen = Seen {
        success: false,
        denial: false,
        servfail: false,
        no_success: false,
        no_denial: false,
        keepttl: false,
    };
    let mut rest = lines;
    while let Some((line, behind)) = rest.split_first() {
        if let Some(why) = line_why(seen, line.words.as_slice()) {
            return Some(DirectiveFault::Why {
                line: line.number,
                why,
            });
        }
        seen = seen_behind(seen, line.words.as_slice());
        rest = behind;
    }
    None
}

// Why a line doesn't fit, behind lines with these options.
fn line_why(seen: Seen, words: &[Text]) -> Option<DirectiveWhy>
    ensures { result ≡ line_why seen words.now }
{
    let Some((word, rest)) = words.split_first() else {
        return Some(DirectiveWhy::Args);
    };
    match opened(word) {
        Opens::Success => once(seen.success, class_why(rest)),
        Opens::Denial => once(seen.denial, class_why(rest)),
        Opens::Servfail => once(seen.servfail, servfail_why(rest)),
        Opens::Disable => disable_why(seen, rest),
        Opens::Keepttl => once(seen.keepttl, empty_why(rest)),
        Opens::Nothing => Some(DirectiveWhy::Option),
    }
}

fn class_why(words: &[Text]) -> Option<DirectiveWhy>
    ensures { result ≡ class_why words.now }
{
    let Some((word, rest)) = words.split_first() else {
        return Some(DirectiveWhy::Args);
    };
    if read_capacity(word).is_none() {
        return Some(DirectiveWhy::Number);
    }
    times_why(rest)
}

fn times_why(words: &[Text]) -> Option<DirectiveWhy>
    ensures { result ≡ times_why words.now }
{
    let (word, rest) = words.split_first()?;
    if read_ttl(word).is_none() {
        return Some(DirectiveWhy::Number);
    }
    least_why(rest)
}

fn least_why(words: &[Text]) -> Option<DirectiveWhy>
    ensures { result ≡ least_why words.now }
{
    let (word, rest) = words.split_first()?;
    if read_ttl(word).is_none() {
        return Some(DirectiveWhy::Number);
    }
    empty_why(rest)
}

fn servfail_why(words: &[Text]) -> Option<DirectiveWhy>
    ensures { result ≡ servfail_why words.now }
{
    let Some((word, rest)) = words.split_first() else {
        return Some(DirectiveWhy::Args);
    };
    if read_seconds(word).is_none() {
        return Some(DirectiveWhy::Number);
    }
    empty_why(rest)
}

fn disable_why(seen: Seen, words: &[Text]) -> Option<DirectiveWhy>
    ensures { result ≡ disable_why seen words.now }
{
    let Some((word, rest)) = words.split_first() else {
        return Some(DirectiveWhy::Args);
    };
    match chosen(word) {
        Choice::Success => once(seen.no_success, empty_why(rest)),
        Choice::Denial => once(seen.no_denial, empty_why(rest)),
        Choice::Neither => Some(DirectiveWhy::Option),
    }
}

// The options behind a line.
fn seen_behind(seen: Seen, words: &[Text]) -> Seen
    ensures { result ≡ seen_behind seen words.now }
{
    match words.split_first() {
        Some((word, rest)) => seen_with(seen, opened(word), rest),
        None => seen,
    }
}

fn seen_with(mut seen: Seen, opens: Opens, words: &[Text]) -> Seen
    ensures { result ≡ seen_with seen opens words.now }
{
    match opens {
        Opens::Success => seen.success = true,
        Opens::Denial => seen.denial = true,
        Opens::Servfail => seen.servfail = true,
        Opens::Disable => return seen_without(seen, words),
        Opens::Keepttl => seen.keepttl = true,
        Opens::Nothing => {}
    }
    seen
}

fn seen_without(mut seen: Seen, words: &[Text]) -> Seen
    ensures { result ≡ seen_without seen words.now }
{
    let Some((word, _)) = words.split_first() else {
        return seen;
    };
    match chosen(word) {
        Choice::Success => seen.no_success = true,
        Choice::Denial => seen.no_denial = true,
        Choice::Neither => {}
    }
    seen
}
