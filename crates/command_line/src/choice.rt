ghost use Rattle.std.specs.Prelude.{◌≡◌, ◌≢◌, ◌++◌, ◌↔◌, ℕ, List, IsTrue, MatchOption};
ghost use Rattle.command_line.specs.Command.{IsHead, IsUpTo, IsValue, Heads};
ghost use Rattle.command_line.specs.Command.{Choice as OptionChoice};
ghost use Rattle.command_line.specs.Options.{choice_data};

use crate::bounds::WORKERS;
use dns_data::{Text, limit};
use numbers::read_digits;

/// An option with its value.
#[derive(Clone, Copy)]
pub(crate) enum Choice<'a> {
    Conf(&'a str),
    Port(u16),
    Workers(u64),
    Queries(u64),
}

/// The option with which the words begin, and the words behind it.
pub(crate) fn read_choice(words: &[Text]) -> Option<(Choice<'_>, &[Text])>
    ensures { MatchOption result
        ((c : OptionChoice) (behind : List (List ℕ)) → Heads c words.now behind → ⊥)
        (λ r. Heads (choice_data r.0) words.now r.1.now) }
{
    if let Some((file, behind)) = option_value(words, "--conf") {
        return if is_value(file) {
            Some((Choice::Conf(file), behind))
        } else {
            None
        };
    }
    if let Some((text, behind)) = option_value(words, "--port") {
        let port = read_most(text, 65_535)?;
        return Some((Choice::Port(port as u16), behind));
    }
    if let Some((text, behind)) = option_value(words, "--workers") {
        return Some((Choice::Workers(read_most(text, WORKERS)?), behind));
    }
    if let Some((text, behind)) = option_value(words, "--queries") {
        return Some((Choice::Queries(read_most(text, limit::QUERIES)?), behind));
    }
    None
}

// The value of the option of this name, where the words begin with that: it is the second word, or
// stands behind a `=` in the first.
fn option_value<'a>(words: &'a [Text], name: &str) -> Option<(&'a str, &'a [Text])>
    ensures { MatchOption result
        ((value : List ℕ) (behind : List (List ℕ)) → IsHead name.now value words.now behind → ⊥)
        (λ r. IsHead name.now r.0.now words.now r.1.now) }
{
    let (first, behind) = words.split_first()?;
    if first.as_str() == name {
        let (value, behind) = behind.split_first()?;
        return Some((value.as_str(), behind));
    }
    let Some(tail) = text_behind(first.as_str(), name) else {
        return None;
    };
    let Some(value) = text_behind(tail, "=") else {
        return None;
    };
    Some((value, behind))
}

// What stands behind the first part of a text.
fn text_behind<'a>(text: &'a str, first: &str) -> Option<&'a str>
    ensures { MatchOption result ((tail : List ℕ) → text.now ≢ first.now ++ tail)
        (λ tail. text.now ≡ first.now ++ tail.now) }
{
    text.strip_prefix(first)
}

/// The number from 1 to `most` that one to ten digits spell.
pub(crate) fn read_most(text: &str, most: u64) -> Option<u64>
    ensures { MatchOption result ((n : ℕ) → IsUpTo most text.now n → ⊥) (IsUpTo most text.now) }
{
    let number = read_digits(text.as_bytes(), 10)?;
    if number < 1 {
        return None;
    }
    if most < number {
        return None;
    }
    Some(number)
}

// An option's value isn't empty and doesn't begin with `-`.
fn is_value(text: &str) -> bool
    ensures { IsTrue result ↔ IsValue text.now }
{
    let bytes = text.as_bytes();
    0 < bytes.len() && bytes[0] != b'-'
}
