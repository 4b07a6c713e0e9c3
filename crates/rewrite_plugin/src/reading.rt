ghost use Rattle.std.specs.Prelude.{◌≡◌, ◌++◌, [], IfOk, OnOk};
ghost use Rattle.plugin_api.specs.declared.fault.DirectiveFault.TheVariants.{Why};
ghost use Rattle.rewrite_plugin.specs.Words.{answering_in, answers_in, body_in, end_map, first_in};
ghost use Rattle.rewrite_plugin.specs.Words.{line_in, lines_in, more_behind, reading_of};
ghost use Rattle.rewrite_plugin.specs.Words.{renaming_by, renaming_in, renaming_to, replacing_in};
ghost use Rattle.rewrite_plugin.specs.Words.{behind_flow, goes_on, rule_in, rule_of, ttl_by};
ghost use Rattle.rewrite_plugin.specs.Words.{ttl_to, type_end};

use crate::matching::Matching;
use crate::rule::{Answering, Matcher, Renaming, Replacing, Rule, Written};
use crate::words::{PatternAt, dotted, keep_pattern, matcher_of, seconds_in, sought_in, to_of};
use dns_data::{Copies, Directive, Line, NoMemory, Seq, Text};
use plugin_api::{DirectiveFault, DirectiveWhy};
use std::alloc::Global;
use type_names::read_kind;

/// A directive, or its first fault. Patterns that stand in front of that are found.
#[tactic(auto, unfolding(crate::specs::Words::reading_of))]
pub(crate) fn read_written(
    alloc: Global,
    directive: &Directive,
    found: &mut Seq<PatternAt>,
) -> Result<Result<Written<Text>, DirectiveFault>, NoMemory>
    ensures end { IfOk result (λ read. read ≡ (reading_of directive.now).end) }
    ensures patterns { OnOk result
        (found.new ≡ found.old ++ (reading_of directive.now).patterns) }
{
    let words = behind_flow(directive.args.as_slice());
    match read_rule_of(alloc, directive, words, found)? {
        Ok(rule) => Ok(Ok(Written {
            goes_on: goes_on(directive.args.as_slice()),
            rule,
        })),
        Err(fault) => Ok(Err(fault)),
    }
}

fn behind_flow(words: &[Text]) -> &[Text]
    ensures { result.now ≡ behind_flow words.now }
{
    let Some((word, behind)) = words.split_first() else {
        return words;
    };
    let bytes = word.as_str().as_bytes();
    if bytes == b"continue".as_slice() {
        return behind;
    }
    if bytes == b"stop".as_slice() {
        return behind;
    }
    words
}

fn goes_on(words: &[Text]) -> bool
    ensures { result ≡ goes_on words.now }
{
    match words.split_first() {
        Some((word, _)) => word.as_str().as_bytes() == b"continue".as_slice(),
        None => false,
    }
}

fn read_rule_of(
    alloc: Global,
    directive: &Directive,
    words: &[Text],
    found: &mut Seq<PatternAt>,
) -> Result<Result<Rule<Text>, DirectiveFault>, NoMemory>
    ensures end { IfOk result
        (λ read. read ≡ (rule_of directive.now.line words.now directive.now.body).end) }
    ensures patterns { OnOk result (found.new
        ≡ found.old ++ (rule_of directive.now.line words.now directive.now.body).patterns) }
{
    if words.is_empty() {
        return read_body(alloc, directive.line, directive.body.as_slice(), found);
    }
    match read_rule(alloc, directive.line, words, found)? {
        Err(fault) => Ok(Err(fault)),
        Ok(rule) => {
            if directive.body.as_slice().is_empty() {
                return Ok(Ok(rule));
            }
            Ok(Err(DirectiveFault::Why {
                line: directive.line,
                why: DirectiveWhy::Args,
            }))
        }
    }
}

fn read_body(
    alloc: Global,
    number: u32,
    lines: &[Line],
    found: &mut Seq<PatternAt>,
) -> Result<Result<Rule<Text>, DirectiveFault>, NoMemory>
    ensures end { IfOk result (λ read. read ≡ (body_in number lines.now).end) }
    ensures patterns { OnOk result
        (found.new ≡ found.old ++ (body_in number lines.now).patterns) }
{
    let Some((line, behind)) = lines.split_first() else {
        return Ok(Err(fault(number, DirectiveWhy::Args)));
    };
    match read_first(alloc, line.number, line.words.as_slice(), found)? {
        Err(fault) => Ok(Err(fault)),
        Ok(renaming) => {
            let Renaming { from, to, answers } = renaming;
            match read_lines(alloc, answers, behind, found)? {
                Err(fault) => Ok(Err(fault)),
                Ok(answers) => Ok(Ok(Rule::Name(Renaming { from, to, answers }))),
            }
        }
    }
}

fn read_first(
    alloc: Global,
    line: u32,
    words: &[Text],
    found: &mut Seq<PatternAt>,
) -> Result<Result<Renaming<Text>, DirectiveFault>, NoMemory>
    ensures end { IfOk result (λ read. read ≡ (first_in line words.now).end) }
    ensures patterns { OnOk result (found.new ≡ found.old ++ (first_in line words.now).patterns) }
{
    let Some((word, behind)) = words.split_first() else {
        return Ok(Err(fault(line, DirectiveWhy::Option)));
    };
    let bytes = word.as_str().as_bytes();
    if bytes == b"name".as_slice() {
        return read_renaming(alloc, line, behind, found);
    }
    if bytes == b"answer".as_slice() {
        return Ok(Err(fault(line, DirectiveWhy::Args)));
    }
    Ok(Err(fault(line, DirectiveWhy::Option)))
}

fn read_lines(
    alloc: Global,
    before: Seq<Answering<Text>>,
    lines: &[Line],
    found: &mut Seq<PatternAt>,
) -> Result<Result<Seq<Answering<Text>>, DirectiveFault>, NoMemory>
    ensures end { IfOk result
        (λ read. read ≡ end_map (more_behind before) (lines_in lines.now).end) }
    ensures patterns { OnOk result (found.new ≡ found.old ++ (lines_in lines.now).patterns) }
{
    let mut answers = before;
    let mut rest = lines;
    while let Some((line, behind)) = rest.split_first() {
        match read_line(alloc, line.number, line.words.as_slice(), found)? {
            Ok(answering) => answers.push(answering)?,
            Err(fault) => return Ok(Err(fault)),
        }
        rest = behind;
    }
    Ok(Ok(answers))
}

fn read_line(
    alloc: Global,
    line: u32,
    words: &[Text],
    found: &mut Seq<PatternAt>,
) -> Result<Result<Answering<Text>, DirectiveFault>, NoMemory>
    ensures end { IfOk result (λ read. read ≡ (line_in line words.now).end) }
    ensures patterns { OnOk result (found.new ≡ found.old ++ (line_in line words.now).patterns) }
{
    let Some((word, behind)) = words.split_first() else {
        return Ok(Err(fault(line, DirectiveWhy::Option)));
    };
    let bytes = word.as_str().as_bytes();
    if bytes == b"answer".as_slice() {
        return read_answering(alloc, line, behind, found);
    }
    if bytes == b"name".as_slice() {
        return Ok(Err(fault(line, DirectiveWhy::Args)));
    }
    Ok(Err(fault(line, DirectiveWhy::Option)))
}

fn read_rule(
    alloc: Global,
    line: u32,
    words: &[Text],
    found: &mut Seq<PatternAt>,
) -> Result<Result<Rule<Text>, DirectiveFault>, NoMemory>
    ensures end { IfOk result (λ read. read ≡ (rule_in line words.now).end) }
    ensures patterns { OnOk result (found.new ≡ found.old ++ (rule_in line words.now).patterns) }
{
    let Some((word, behind)) = words.split_first() else {
        return Ok(Err(fault(line, DirectiveWhy::Args)));
    };
    let bytes = word.as_str().as_bytes();
    if bytes == b"name".as_slice() {
        return match read_renaming(alloc, line, behind, found)? {
            Ok(renaming) => Ok(Ok(Rule::Name(renaming))),
            Err(fault) => Ok(Err(fault)),
        };
    }
    if bytes == b"type".as_slice() {
        return Ok(read_type(line, behind));
    }
    if bytes == b"ttl".as_slice() {
        let (by, rest) = sought_in(behind);
        return read_ttl(alloc, line, by, rest, found);
    }
    Ok(Err(fault(line, DirectiveWhy::Option)))
}

fn read_type(line: u32, words: &[Text]) -> Result<Rule<Text>, DirectiveFault>
    ensures { result ≡ type_end line words.now }
{
    let Some((word, behind)) = words.split_first() else {
        return Err(fault(line, DirectiveWhy::Args));
    };
    if word.as_str().as_bytes().is_empty() {
        return Err(fault(line, DirectiveWhy::Args));
    }
    let Some(from) = read_kind(word.as_str().as_bytes()) else {
        return Err(fault(line, DirectiveWhy::Kind));
    };
    let Some((word, rest)) = behind.split_first() else {
        return Err(fault(line, DirectiveWhy::Args));
    };
    let Some(to) = read_kind(word.as_str().as_bytes()) else {
        return Err(fault(line, DirectiveWhy::Kind));
    };
    if rest.is_empty() {
        return Ok(Rule::Type(from, to));
    }
    Err(fault(line, DirectiveWhy::Args))
}

fn read_ttl(
    alloc: Global,
    line: u32,
    by: Matching,
    words: &[Text],
    found: &mut Seq<PatternAt>,
) -> Result<Result<Rule<Text>, DirectiveFault>, NoMemory>
    ensures end { IfOk result (λ read. read ≡ (ttl_by line by words.now).end) }
    ensures patterns { OnOk result
        (found.new ≡ found.old ++ (ttl_by line by words.now).patterns) }
{
    let Some((name, behind)) = words.split_first() else {
        return Ok(Err(fault(line, DirectiveWhy::Args)));
    };
    if name.as_str().as_bytes().is_empty() {
        return Ok(Err(fault(line, DirectiveWhy::Args)));
    }
    keep_pattern(alloc, by, line, name, found)?;
    Ok(read_seconds(line, matcher_of(alloc, by, name)?, behind))
}

fn read_seconds(
    line: u32,
    from: Matcher<Text>,
    words: &[Text],
) -> Result<Rule<Text>, DirectiveFault>
    ensures end { result ≡ (ttl_to line from words.now).end }
    ensures none { (ttl_to line from words.now).patterns ≡ [] }
{
    let Some((word, rest)) = words.split_first() else {
        return Err(fault(line, DirectiveWhy::Args));
    };
    let Some(seconds) = seconds_in(word) else {
        return Err(fault(line, DirectiveWhy::Number));
    };
    if rest.is_empty() {
        return Ok(Rule::Ttl(from, seconds));
    }
    Err(fault(line, DirectiveWhy::Args))
}

fn read_renaming(
    alloc: Global,
    line: u32,
    words: &[Text],
    found: &mut Seq<PatternAt>,
) -> Result<Result<Renaming<Text>, DirectiveFault>, NoMemory>
    ensures end { IfOk result (λ read. read ≡ (renaming_in line words.now).end) }
    ensures patterns { OnOk result
        (found.new ≡ found.old ++ (renaming_in line words.now).patterns) }
{
    let (by, rest) = sought_in(words);
    let Some((from, behind)) = rest.split_first() else {
        return Ok(Err(fault(line, DirectiveWhy::Args)));
    };
    if from.as_str().as_bytes().is_empty() {
        return Ok(Err(fault(line, DirectiveWhy::Args)));
    }
    keep_pattern(alloc, by, line, from, found)?;
    read_renaming_to(alloc, line, by, from, behind, found)
}

fn read_renaming_to(
    alloc: Global,
    line: u32,
    by: Matching,
    from: &Text,
    words: &[Text],
    found: &mut Seq<PatternAt>,
) -> Result<Result<Renaming<Text>, DirectiveFault>, NoMemory>
    ensures end { IfOk result
        (λ read. read ≡ (renaming_to line by from.now words.now).end) }
    ensures patterns { OnOk result (found.new
        ≡ found.old ++ (renaming_to line by from.now words.now).patterns) }
{
    let Some((to, behind)) = words.split_first() else {
        return Ok(Err(fault(line, DirectiveWhy::Args)));
    };
    match read_answers(alloc, line, behind, found)? {
        Err(fault) => Ok(Err(fault)),
        Ok(answers) => Ok(Ok(Renaming {
            from: matcher_of(alloc, by, from)?,
            to: to_of(alloc, by, to)?,
            answers,
        })),
    }
}

fn read_answers(
    alloc: Global,
    line: u32,
    words: &[Text],
    found: &mut Seq<PatternAt>,
) -> Result<Result<Seq<Answering<Text>>, DirectiveFault>, NoMemory>
    ensures end { IfOk result (λ read. read ≡ (answers_in line words.now).end) }
    ensures patterns { OnOk result
        (found.new ≡ found.old ++ (answers_in line words.now).patterns) }
{
    let mut answers = Seq::new(alloc);
    let Some((word, behind)) = words.split_first() else {
        return Ok(Ok(answers));
    };
    if word.as_str().as_bytes() != b"answer".as_slice() {
        return Ok(Err(fault(line, DirectiveWhy::Args)));
    }
    match read_answering(alloc, line, behind, found)? {
        Err(fault) => Ok(Err(fault)),
        Ok(answering) => {
            answers.push(answering)?;
            Ok(Ok(answers))
        }
    }
}

fn read_answering(
    alloc: Global,
    line: u32,
    words: &[Text],
    found: &mut Seq<PatternAt>,
) -> Result<Result<Answering<Text>, DirectiveFault>, NoMemory>
    ensures end { IfOk result (λ read. read ≡ (answering_in line words.now).end) }
    ensures patterns { OnOk result
        (found.new ≡ found.old ++ (answering_in line words.now).patterns) }
{
    let Some((word, behind)) = words.split_first() else {
        return Ok(Err(fault(line, DirectiveWhy::Args)));
    };
    let bytes = word.as_str().as_bytes();
    if bytes == b"auto".as_slice() {
        if behind.is_empty() {
            return Ok(Ok(Answering::Auto));
        }
        return Ok(Err(fault(line, DirectiveWhy::Args)));
    }
    if bytes == b"name".as_slice() {
        return match read_replacing(alloc, line, behind, found)? {
            Ok(replacing) => Ok(Ok(Answering::Name(replacing))),
            Err(fault) => Ok(Err(fault)),
        };
    }
    if bytes == b"value".as_slice() {
        return match read_replacing(alloc, line, behind, found)? {
            Ok(replacing) => Ok(Ok(Answering::Value(replacing))),
            Err(fault) => Ok(Err(fault)),
        };
    }
    Ok(Err(fault(line, DirectiveWhy::Option)))
}

fn read_replacing(
    alloc: Global,
    line: u32,
    words: &[Text],
    found: &mut Seq<PatternAt>,
) -> Result<Result<Replacing<Text>, DirectiveFault>, NoMemory>
    ensures end { IfOk result (λ read. read ≡ (replacing_in line words.now).end) }
    ensures patterns { OnOk result
        (found.new ≡ found.old ++ (replacing_in line words.now).patterns) }
{
    let Some((pattern, behind)) = words.split_first() else {
        return Ok(Err(fault(line, DirectiveWhy::Args)));
    };
    found.push(PatternAt {
        line,
        text: pattern.copy(alloc)?,
    })?;
    let Some((to, rest)) = behind.split_first() else {
        return Ok(Err(fault(line, DirectiveWhy::Args)));
    };
    if !rest.is_empty() {
        return Ok(Err(fault(line, DirectiveWhy::Args)));
    }
    Ok(Ok(Replacing {
        pattern: pattern.copy(alloc)?,
        to: dotted(alloc, to)?,
    }))
}

// The fault of a line.
fn fault(line: u32, why: DirectiveWhy) -> DirectiveFault
    ensures { result ≡ Why line why }
{
    DirectiveFault::Why { line, why }
}
