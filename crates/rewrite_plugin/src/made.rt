//! A rule that was read, with what finds its patterns in place of their texts.
ghost use Rattle.std.specs.Prelude.{◌≡◌, ◌++◌, ◌∷◌, ◌<◌, ℕ, List, [], length, IfOk, OnOk};
ghost use Rattle.rewrite_plugin.specs.Made.{answering_patterns, answers_patterns};
ghost use Rattle.rewrite_plugin.specs.Made.{renaming_patterns, rule_patterns};
ghost use Rattle.rewrite_plugin.specs.Rules.{matcher_patterns};

use crate::finder::Finder;
use crate::rule::{Answering, Matcher, Renaming, Replacing, Rule, Seconds, Written};
use dns_data::{Copies, NoMemory, Seq, Text};
use std::alloc::Global;
use std::collections::VecDeque;

/// The rule with what finds its patterns, which stands in the order of the text.
pub(crate) fn made_written(
    alloc: Global,
    read: &Written<Text>,
    mut finders: VecDeque<Finder>,
) -> Result<Written<Finder>, NoMemory>
    requires { finders.items ≡ rule_patterns read.now.rule }
    ensures { IfOk result (λ made. made ≡ read.now) }
{
    let rule = match &read.rule {
        Rule::Name(renaming) => Rule::Name(made_renaming(alloc, renaming, &mut finders)?),
        Rule::Type(from, to) => Rule::Type(*from, *to),
        Rule::Ttl(from, seconds) => {
            let from = made_matcher(alloc, from, &mut finders)?;
            Rule::Ttl(from, Seconds::of(seconds.number()))
        }
    };
    Ok(Written {
        goes_on: read.goes_on,
        rule,
    })
}

fn made_renaming(
    alloc: Global,
    renaming: &Renaming<Text>,
    finders: &mut VecDeque<Finder>,
) -> Result<Renaming<Finder>, NoMemory>
    requires { finders.old.items ≡ renaming_patterns renaming.now }
    ensures { IfOk result (λ made. made ≡ renaming.now) }
{
    let from = made_matcher(alloc, &renaming.from, finders)?;
    let answers = made_answers(alloc, renaming.answers.as_slice(), finders)?;
    Ok(Renaming {
        from,
        to: renaming.to.copy(alloc)?,
        answers,
    })
}

// What is sought, whose pattern, if any, stands first.
fn made_matcher(
    alloc: Global,
    from: &Matcher<Text>,
    finders: &mut VecDeque<Finder>,
) -> Result<Matcher<Finder>, NoMemory>
    requires { (rest : List (List ℕ)) × (finders.old.items ≡ matcher_patterns from.now ++ rest) }
    ensures made { IfOk result (λ made. made ≡ from.now) }
    ensures left { OnOk result ((rest : List (List ℕ))
        → finders.old.items ≡ matcher_patterns from.now ++ rest → finders.new.items ≡ rest) }
{
    Ok(match from {
        Matcher::Exact(text) => Matcher::Exact(text.copy(alloc)?),
        Matcher::Prefix(text) => Matcher::Prefix(text.copy(alloc)?),
        Matcher::Suffix(text) => Matcher::Suffix(text.copy(alloc)?),
        Matcher::Substring(text) => Matcher::Substring(text.copy(alloc)?),
        Matcher::Regex(_) => Matcher::Regex(first(finders)),
    })
}

fn made_answers(
    alloc: Global,
    answers: &[Answering<Text>],
    finders: &mut VecDeque<Finder>,
) -> Result<Seq<Answering<Finder>>, NoMemory>
    requires { finders.old.items ≡ answers_patterns answers.now }
    ensures { IfOk result (λ made. made ≡ answers.now) }
{
    let mut made = Seq::new(alloc);
    let mut rest = answers;
    while let Some((answering, behind)) = rest.split_first() {
        made.push(made_answering(alloc, answering, finders)?)?;
        rest = behind;
    }
    Ok(made)
}

// An `answer`, whose pattern, if any, stands first.
fn made_answering(
    alloc: Global,
    answering: &Answering<Text>,
    finders: &mut VecDeque<Finder>,
) -> Result<Answering<Finder>, NoMemory>
    requires { (rest : List (List ℕ))
        × (finders.old.items ≡ answering_patterns answering.now ++ rest) }
    ensures made { IfOk result (λ made. made ≡ answering.now) }
    ensures left { OnOk result ((rest : List (List ℕ))
        → finders.old.items ≡ answering_patterns answering.now ++ rest → finders.new.items ≡ rest) }
{
    match answering {
        Answering::Auto => Ok(Answering::Auto),
        Answering::Name(replacing) => {
            Ok(Answering::Name(made_replacing(alloc, replacing, finders)?))
        }
        Answering::Value(replacing) => {
            Ok(Answering::Value(made_replacing(alloc, replacing, finders)?))
        }
    }
}

fn made_replacing(
    alloc: Global,
    replacing: &Replacing<Text>,
    finders: &mut VecDeque<Finder>,
) -> Result<Replacing<Finder>, NoMemory>
    requires { (rest : List (List ℕ))
        × (finders.old.items ≡ replacing.now.pattern ∷ rest) }
    ensures made { IfOk result (λ made. made ≡ replacing.now) }
    ensures left { OnOk result ((rest : List (List ℕ))
        → finders.old.items ≡ replacing.now.pattern ∷ rest → finders.new.items ≡ rest) }
{
    let pattern = first(finders);
    Ok(Replacing {
        pattern,
        to: replacing.to.copy(alloc)?,
    })
}

fn first(finders: &mut VecDeque<Finder>) -> Finder
    requires { 0 < length finders.old.items }
    ensures { finders.old.items ≡ result ∷ finders.new.items }
{
    match finders.pop_front() {
        Some(finder) => finder,
        None => unreachable!(),
    }
}
