ghost use Rattle.std.specs.Prelude.{◌≡◌};
ghost use Rattle.acl_plugin.specs.Lines.{line_why, plain_why, word_why, words_why};
ghost use Rattle.acl_plugin.specs.Acl.{body_fault, lines_fault};
ghost use Rattle.acl_plugin.specs.declared.part.Part.TheVariants as part;

use crate::part::{Part, is_star, opened, part_behind};
use crate::policy::action_of;
use dns_data::{Line, Net, Text};
use plugin_api::{DirectiveFault, DirectiveWhy};
use type_names::read_kind;

/// The first fault of a body: it has no line, or a line is no policy.
pub(crate) fn body_fault(line: u32, body: &[Line]) -> Option<DirectiveFault>
    ensures { result ≡ body_fault line body.now }
{
    if body.len() == 0 {
        return Some(DirectiveFault::Why {
            line,
            why: DirectiveWhy::Args,
        });
    }
    lines_fault(body)
}

// The fault of the first line that is no policy.
fn lines_fault(lines: &[Line]) -> Option<DirectiveFault>
    ensures { result ≡ lines_fault lines.now }
{
    let mut rest = lines;
    while let Some((line, behind)) = rest.split_first() {
        if let Some(why) = line_why(line.words.as_slice()) {
            return Some(DirectiveFault::Why {
                line: line.number,
                why,
            });
        }
        rest = behind;
    }
    None
}

// Why a line is no policy.
#[tactic(auto, unfolding(crate::specs::Lines::line_why))]
fn line_why(line: &[Text]) -> Option<DirectiveWhy>
    ensures { result ≡ line_why line.now }
{
    let Some((word, words)) = line.split_first() else {
        return Some(DirectiveWhy::Option);
    };
    if action_of(word).is_none() {
        return Some(DirectiveWhy::Option);
    }
    words_why(words)
}

// Why the first word behind an action that doesn't fit doesn't.
fn words_why(words: &[Text]) -> Option<DirectiveWhy>
    ensures { result ≡ words_why part.Front words.now }
{
    let mut part = Part::Front;
    let mut rest = words;
    while let Some((word, behind)) = rest.split_first() {
        if let Some(why) = word_why(part, word) {
            return Some(why);
        }
        part = part_behind(part, word);
        rest = behind;
    }
    None
}

// Why a word of this part doesn't fit.
fn word_why(part: Part, word: &Text) -> Option<DirectiveWhy>
    ensures { result ≡ word_why part word.now }
{
    if opened(word).is_some() {
        return None;
    }
    plain_why(part, word)
}

// Why a word that opens no part doesn't fit.
fn plain_why(part: Part, word: &Text) -> Option<DirectiveWhy>
    ensures { result ≡ plain_why part word.now }
{
    let bytes = word.as_str().as_bytes();
    match part {
        Part::Front => Some(DirectiveWhy::Option),
        Part::Types => {
            if is_star(word) || read_kind(bytes).is_some() {
                return None;
            }
            Some(DirectiveWhy::Kind)
        }
        Part::Nets => {
            if is_star(word) || Net::read(bytes).is_some() {
                return None;
            }
            Some(DirectiveWhy::Net)
        }
    }
}
