//! The options of a directive.
ghost use Rattle.std.specs.Prelude.{◌≡◌, ◌≤◌, codes, IfOk, IfSome};
ghost use Rattle.forward_plugin.specs.Options.{except_of, fails_in, fails_of, from_by, is_forced};
ghost use Rattle.forward_plugin.specs.Options.{policy_in, policy_of};
ghost use Rattle.forward_plugin.specs.Reading.{except_why, fails_why, line_why, lines_fault};
ghost use Rattle.forward_plugin.specs.Reading.{none_seen, opened, policy_why, seen_after};
ghost use Rattle.forward_plugin.specs.Reading.{seen_with};

use crate::options::Policy;
use crate::seen::{Opens, OptionsSeen};
use dns_data::{Line, Name, Names, NoMemory, Seq, Text};
use numbers::read_digits;
use plugin_api::{DirectiveFault, DirectiveWhy, empty_why, once, option_in};
use std::alloc::Global;
use zone_words::{read_zone, read_zones};

// As many failed tries in a row as `max_fails` takes.
const MOST_FAILS: u64 = 1_000_000;

/// The zone in which names are passed on.
pub(crate) fn from_of(alloc: Global, args: &[Text]) -> Result<Name, NoMemory>
    ensures { IfOk result (λ zone. zone ≡ from_by args.now) }
{
    let Some((word, _)) = args.split_first() else {
        return Ok(Name::root(alloc));
    };
    match read_zone(alloc, word.as_str().as_bytes())? {
        Some(zone) => Ok(zone),
        None => Ok(Name::root(alloc)),
    }
}

/// The zones in which names go on all the same.
pub(crate) fn except_of(alloc: Global, lines: &[Line]) -> Result<Names, NoMemory>
    ensures { IfOk result (λ zones. zones ≡ except_of lines.now) }
{
    let Some(words) = option_in(lines, b"except") else {
        return Ok(Seq::new(alloc));
    };
    match read_zones(alloc, &Seq::new(alloc), words)? {
        Some(zones) => Ok(zones),
        None => Ok(Seq::new(alloc)),
    }
}

/// Whether upstreams are always asked over TCP.
pub(crate) fn is_forced(lines: &[Line]) -> bool
    ensures { result ≡ is_forced lines.now }
{
    option_in(lines, b"force_tcp").is_some()
}

// The policy that a word names.
fn policy_in(word: &Text) -> Option<Policy>
    ensures { result ≡ policy_in word.now }
{
    match word.as_str() {
        "random" => Some(Policy::Random),
        "round_robin" => Some(Policy::RoundRobin),
        "sequential" => Some(Policy::Sequential),
        _ => None,
    }
}

/// With which upstream queries begin.
pub(crate) fn policy_of(lines: &[Line]) -> Policy
    ensures { result ≡ policy_of lines.now }
{
    let Some(words) = option_in(lines, b"policy") else {
        return Policy::Random;
    };
    match words.split_first() {
        Some((word, _)) => policy_in(word).unwrap_or(Policy::Random),
        None => Policy::Random,
    }
}

// The number that a word of `max_fails` spells.
fn fails_in(word: &Text) -> Option<u32>
    ensures { result ≡ fails_in word.now }
{
    let number = read_digits(word.as_str().as_bytes(), 10)?;
    if number <= MOST_FAILS {
        return Some(number as u32);
    }
    None
}

/// How many failed tries in a row leave an upstream out.
pub(crate) fn fails_of(lines: &[Line]) -> u32
    ensures { result ≡ fails_of lines.now }
{
    let Some(words) = option_in(lines, b"max_fails") else {
        return 0;
    };
    match words.split_first() {
        Some((word, _)) => fails_in(word).unwrap_or(0),
        None => 0,
    }
}

// What a line is that begins with this word.
fn opened(word: &Text) -> Opens
    ensures { result ≡ opened word.now }
{
    match word.as_str() {
        "except" => Opens::Except,
        "force_tcp" => Opens::ForceTcp,
        "policy" => Opens::Policy,
        "max_fails" => Opens::MaxFails,
        _ => Opens::Other,
    }
}

/// The fault of the first line that doesn't fit.
pub(crate) fn lines_fault(alloc: Global, lines: &[Line]) -> Result<Option<DirectiveFault>, NoMemory>
    ensures { IfOk result (λ fault. fault ≡ lines_fault none_seen lines.now) }
{
    let mut seen = OptionsSeen {
        except: false,
        force_tcp: false,
        policy: false,
        max_fails: false,
    };
    let mut rest = lines;
    while let Some((line, others)) = rest.split_first() {
        if let Some(why) = line_why(alloc, seen, line.words.as_slice())? {
            return Ok(Some(DirectiveFault::Why {
                line: line.number,
                why,
            }));
        }
        seen = seen_after(seen, line.words.as_slice());
        rest = others;
    }
    Ok(None)
}

// The options before the next line.
fn seen_after(seen: OptionsSeen, words: &[Text]) -> OptionsSeen
    ensures { result ≡ seen_after seen words.now }
{
    match words.split_first() {
        Some((word, _)) => seen_with(seen, opened(word)),
        None => seen,
    }
}

fn seen_with(seen: OptionsSeen, opens: Opens) -> OptionsSeen
    ensures { result ≡ seen_with seen opens }
{
    match opens {
        Opens::Except => OptionsSeen {
            except: true,
            ..seen
        },
        Opens::ForceTcp => OptionsSeen {
            force_tcp: true,
            ..seen
        },
        Opens::Policy => OptionsSeen {
            policy: true,
            ..seen
        },
        Opens::MaxFails => OptionsSeen {
            max_fails: true,
            ..seen
        },
        Opens::Other => seen,
    }
}

// Why a line doesn't fit, after lines with these options.
fn line_why(
    alloc: Global,
    seen: OptionsSeen,
    words: &[Text],
) -> Result<Option<DirectiveWhy>, NoMemory>
    ensures { IfOk result (λ why. why ≡ line_why seen words.now) }
{
    let Some((word, rest)) = words.split_first() else {
        return Ok(Some(DirectiveWhy::Args));
    };
    match opened(word) {
        Opens::Except => {
            let why = except_why(alloc, rest)?;
            Ok(once(seen.except, why))
        }
        Opens::ForceTcp => Ok(once(seen.force_tcp, empty_why(rest))),
        Opens::Policy => Ok(once(seen.policy, policy_why(rest))),
        Opens::MaxFails => Ok(once(seen.max_fails, fails_why(rest))),
        Opens::Other => Ok(Some(DirectiveWhy::Option)),
    }
}

fn except_why(alloc: Global, words: &[Text]) -> Result<Option<DirectiveWhy>, NoMemory>
    ensures { IfOk result (λ why. why ≡ except_why words.now) }
{
    if words.is_empty() {
        return Ok(Some(DirectiveWhy::Args));
    }
    match read_zones(alloc, &Seq::new(alloc), words)? {
        Some(_) => Ok(None),
        None => Ok(Some(DirectiveWhy::Zone)),
    }
}

fn policy_why(words: &[Text]) -> Option<DirectiveWhy>
    ensures { result ≡ policy_why words.now }
{
    let Some((word, rest)) = words.split_first() else {
        return Some(DirectiveWhy::Args);
    };
    if policy_in(word).is_none() {
        return Some(DirectiveWhy::Option);
    }
    empty_why(rest)
}

fn fails_why(words: &[Text]) -> Option<DirectiveWhy>
    ensures { result ≡ fails_why words.now }
{
    let Some((word, rest)) = words.split_first() else {
        return Some(DirectiveWhy::Args);
    };
    if fails_in(word).is_none() {
        return Some(DirectiveWhy::Number);
    }
    empty_why(rest)
}
