ghost use Rattle.std.specs.Prelude.{◌≡◌, ◌++◌, is_some, IfOk, IfSome};
ghost use Rattle.std.specs.Prelude.{OnOk};
ghost use Rattle.pattern.specs.Texts.{finding_of};
ghost use Rattle.pattern_judging.specs.{maker_behind};
ghost use Rattle.rewrite_plugin.specs.Judging.{IsMadeOf, MakesAll};
ghost use Rattle.rewrite_plugin.specs.Made.{Keeps};
ghost use Rattle.rewrite_plugin.specs.Texts.{filled};
ghost use Rattle.rewrite_plugin.specs.Words.{end_map};

use crate::text::append_filled;
use crate::words::PatternAt;
use dns_data::{Buffer, Copies, Limit, NoMemory, Text, are_bytes, limit};
use outside::PatternMaker;
use pattern::Scratch;
use plugin_api::{DirectiveFault, DirectiveWhy};
use shared_patterns::{MadeShared, SharedPattern, make_shared};
use std::alloc::Global;
use std::collections::VecDeque;
use std::marker::Model;

/// A pattern that is made, which contracts see as its text.
#[derive(Debug, Drop)]
pub struct Finder {
    text: Text,
    pattern: SharedPattern,
}

impl Model for Finder {
    ghost use Rattle.std.specs.Prelude.{ℕ, List};
    ghost use Rattle.pattern.specs.TextsLaws.{IsOfText};

    ghost Value = { List ℕ };

    ghost view = { λ f. f.text };

    ghost invariant = { λ f. IsOfText f.pattern f.text };
}

impl Finder {
    /// The pattern.
    pub(crate) fn pattern(&self) -> &SharedPattern {
        &self.pattern
    }

    /// Whether the pattern is found in a text. The scratch keeps its groups.
    pub(crate) fn search(&self, scratch: &mut Scratch, text: &str) -> Result<bool, NoMemory>
        ensures found { IfOk result (λ found. found ≡ is_some (finding_of self.now text.now)) }
        ensures keeps { OnOk result
            (IfSome (finding_of self.now text.now) (Keeps text.now scratch.new)) }
    {
        are_bytes(text.as_bytes());
        match self.pattern.find(scratch, text, true)? {
            Some(_) => Ok(true),
            None => Ok(false),
        }
    }

    /// Adds what a text becomes in which the pattern is found; false where it isn't.
    pub(crate) fn fill(
        &self,
        scratch: &mut Scratch,
        text: &str,
        to: &[u8],
        out: &mut Buffer,
    ) -> Result<bool, NoMemory>
        ensures found { IfOk result (λ found. found ≡ is_some (finding_of self.now text.now)) }
        ensures filled { OnOk result (IfSome (finding_of self.now text.now)
            (λ found. out.new ≡ out.old ++ filled found.span text.now to.now)) }
    {
        if !self.search(scratch, text)? {
            return Ok(false);
        }
        append_filled(scratch, text, to, out)?;
        Ok(true)
    }
}

/// Makes patterns behind so many of the configuration, or shares those that are there, or tells the
/// first fault.
pub(crate) fn make_all<M: PatternMaker>(
    alloc: Global,
    there: &[&SharedPattern],
    before: usize,
    patterns: &[PatternAt],
    maker: &mut M,
) -> Result<VecDeque<Finder>, DirectiveFault>
    ensures value { MakesAll before patterns.now (M.last maker.new)
        (end_map (λ made. made.items) result) }
    ensures maker { M.state maker.new ≡ maker_behind result (M.state maker.old) }
{
    let mut made = VecDeque::new(alloc);
    let mut number = before;
    let mut rest = patterns;
    while let Some((pattern, behind)) = rest.split_first() {
        if limit::PATTERNS <= number {
            return Err(DirectiveFault::TooMany {
                what: Limit::Patterns,
                number: limit::PATTERNS as u64 + 1,
            });
        }
        match make_finder(alloc, there, pattern, maker) {
            Err(fault) => return Err(fault),
            Ok(finder) => {
                let Ok(()) = made.push_back(finder) else {
                    return Err(DirectiveFault::NoMemory);
                };
            }
        }
        number += 1;
        rest = behind;
    }
    Ok(made)
}

// What finds a pattern.
fn make_finder<M: PatternMaker>(
    alloc: Global,
    there: &[&SharedPattern],
    found: &PatternAt,
    maker: &mut M,
) -> Result<Finder, DirectiveFault>
    ensures value { IsMadeOf found.now (M.last maker.new) result }
    ensures maker { M.state maker.new ≡ maker_behind result (M.state maker.old) }
{
    let text = found.text.copy(alloc)?;
    match make_shared(alloc, there, &found.text, maker) {
        MadeShared::Pattern(pattern) => Ok(Finder { text, pattern }),
        MadeShared::NotPattern => Err(DirectiveFault::Why {
            line: found.line,
            why: DirectiveWhy::Pattern,
        }),
        MadeShared::Refused => Err(DirectiveFault::Why {
            line: found.line,
            why: DirectiveWhy::PatternSize,
        }),
        MadeShared::NoMemory => Err(DirectiveFault::NoMemory),
    }
}
