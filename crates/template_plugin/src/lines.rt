ghost use Rattle.std.specs.Prelude.{◌≡◌, ◌+◌, length, IfOk, Ok};
ghost use Rattle.pattern_judging.specs.{maker_behind};
ghost use Rattle.template_plugin.specs.Judging.{IsMadeOf, Makes, line_task, lines_task};
ghost use Rattle.template_plugin.specs.Judging.{match_task, words_task};
ghost use Rattle.template_plugin.specs.Reading.{behind_line, option_why};

use crate::options::{Earlier, Opens, Seen, is_match, opened, seen_with};
use crate::reading::{rcode_why, text_why};
use dns_data::{Limit, Line, NoMemory, Seq, Text, limit};
use outside::PatternMaker;
use plugin_api::{DirectiveFault, DirectiveWhy, fallthrough_why, once};
use shared_patterns::{MadeShared, SharedPattern, make_shared};
use std::alloc::Global;

/// Where patterns stand: in a line, and behind so many of the configuration.
#[derive(Clone, Copy, Debug, PartialEq, Eq)]
pub struct PatternPlace {
    pub line: u32,
    pub number: usize,
}

/// Makes the patterns of lines, or shares those that are there, or tells the first fault.
pub(crate) fn read_lines<M: PatternMaker>(
    alloc: Global,
    there: &[&SharedPattern],
    first: Earlier,
    lines: &[Line],
    maker: &mut M,
    out: &mut Seq<SharedPattern>,
) -> Result<(), DirectiveFault>
    ensures value { Makes (lines_task first lines.now) out.old out.new
        (M.last maker.new) result }
    ensures maker { M.state maker.new ≡ maker_behind result (M.state maker.old) }
{
    let mut before = first;
    let mut rest = lines;
    while let Some((line, behind)) = rest.split_first() {
        before = read_line(alloc, there, before, line, maker, out)?;
        rest = behind;
    }
    Ok(())
}

// Makes the patterns of a line. What stood before the next line is told.
fn read_line<M: PatternMaker>(
    alloc: Global,
    there: &[&SharedPattern],
    before: Earlier,
    line: &Line,
    maker: &mut M,
    out: &mut Seq<SharedPattern>,
) -> Result<Earlier, DirectiveFault>
    ensures value { Makes (line_task before line.now.number line.now.words) out.old out.new
        (M.last maker.new) result }
    ensures behind { IfOk result (λ after. after ≡ behind_line before line.now.words) }
    ensures maker { M.state maker.new ≡ maker_behind result (M.state maker.old) }
{
    let number = line.number;
    let Some((word, rest)) = line.words.as_slice().split_first() else {
        return Err(DirectiveFault::Why {
            line: number,
            why: DirectiveWhy::Option,
        });
    };
    if is_match(word) {
        let place = PatternPlace {
            line: number,
            number: before.patterns,
        };
        let patterns = read_match(alloc, there, place, rest, maker, out)?;
        return Ok(Earlier {
            seen: before.seen,
            patterns,
        });
    }
    let opens = opened(word);
    if let Some(why) = option_why(alloc, before.seen, opens, rest)? {
        return Err(DirectiveFault::Why { line: number, why });
    }
    Ok(Earlier {
        seen: seen_with(before.seen, opens),
        patterns: before.patterns,
    })
}

// Why a line that opens so doesn't fit.
fn option_why(
    alloc: Global,
    seen: Seen,
    opens: Opens,
    words: &[Text],
) -> Result<Option<DirectiveWhy>, NoMemory>
    ensures { IfOk result (λ why. why ≡ option_why seen opens words.now) }
{
    match opens {
        Opens::Text => text_why(alloc, words),
        Opens::Rcode => Ok(once(seen.rcode, rcode_why(words))),
        Opens::Fallthrough => {
            let why = fallthrough_why(alloc, words)?;
            Ok(once(seen.fallthrough, why))
        }
        Opens::Other => Ok(Some(DirectiveWhy::Option)),
    }
}

// Makes the patterns behind `match`, of which there is one at least, and counts them.
fn read_match<M: PatternMaker>(
    alloc: Global,
    there: &[&SharedPattern],
    place: PatternPlace,
    words: &[Text],
    maker: &mut M,
    out: &mut Seq<SharedPattern>,
) -> Result<usize, DirectiveFault>
    ensures value { Makes (match_task place.line place.number words.now) out.old out.new
        (M.last maker.new) result }
    ensures behind { IfOk result (λ number. number ≡ place.number + length words.now) }
    ensures maker { M.state maker.new ≡ maker_behind result (M.state maker.old) }
{
    if words.is_empty() {
        return Err(DirectiveFault::Why {
            line: place.line,
            why: DirectiveWhy::Args,
        });
    }
    let patterns = read_words(alloc, there, place, words, maker, out)?;
    Ok(patterns)
}

// Makes patterns behind so many of the configuration, and counts them.
fn read_words<M: PatternMaker>(
    alloc: Global,
    there: &[&SharedPattern],
    place: PatternPlace,
    words: &[Text],
    maker: &mut M,
    out: &mut Seq<SharedPattern>,
) -> Result<usize, DirectiveFault>
    ensures value { Makes (words_task place.line place.number words.now) out.old out.new
        (M.last maker.new) result }
    ensures behind { IfOk result (λ number. number ≡ place.number + length words.now) }
    ensures maker { M.state maker.new ≡ maker_behind result (M.state maker.old) }
{
    let mut number = place.number;
    let mut rest = words;
    while let Some((word, behind)) = rest.split_first() {
        if limit::PATTERNS <= number {
            return Err(DirectiveFault::TooMany {
                what: Limit::Patterns,
                number: limit::PATTERNS as u64 + 1,
            });
        }
        let pattern = make_pattern(alloc, there, place.line, word, maker)?;
        out.push(pattern)?;
        number += 1;
        rest = behind;
    }
    Ok(number)
}

// The pattern of a word of a line.
fn make_pattern<M: PatternMaker>(
    alloc: Global,
    there: &[&SharedPattern],
    line: u32,
    word: &Text,
    maker: &mut M,
) -> Result<SharedPattern, DirectiveFault>
    ensures value { IsMadeOf line word.now (M.last maker.new) result }
    ensures maker { M.state maker.new ≡ maker_behind result (M.state maker.old) }
{
    match make_shared(alloc, there, word, maker) {
        MadeShared::Pattern(pattern) => Ok(pattern),
        MadeShared::NotPattern => Err(DirectiveFault::Why {
            line,
            why: DirectiveWhy::Pattern,
        }),
        MadeShared::Refused => Err(DirectiveFault::Why {
            line,
            why: DirectiveWhy::PatternSize,
        }),
        MadeShared::NoMemory => Err(DirectiveFault::NoMemory),
    }
}
