//! What is wrong with a directive.
ghost use Rattle.std.specs.Prelude.{◌≡◌};
ghost use Rattle.dns64_plugin.specs.Reading.{line_why, lines_fault, prefix_why, words_why};

use crate::options::{Opens, Seen, opened, seen_behind};
use crate::prefixes::read_prefix;
use dns_data::{Line, Text};
use plugin_api::{DirectiveFault, DirectiveWhy, empty_why, once};

/// Why the words don't fit: a prefix may stand there, and nothing behind it.
pub(crate) fn words_why(words: &[Text]) -> Option<DirectiveWhy>
    ensures { result ≡ words_why words.now }
{
    if words.is_empty() {
        return None;
    }
    prefix_why(words)
}

/// The fault of the first line that doesn't fit, behind these options.
pub(crate) fn lines_fault(before: Seen, lines: &[Line]) -> Option<DirectiveFault>
    ensures { result ≡ lines_fault before lines.now }
{
    let mut seen = before;
    let mut rest = lines;
    while let Some((line, behind)) = rest.split_first() {
        if let Some(why) = line_why(seen, line.words.as_slice()) {
            return Some(DirectiveFault::Why {
                line: line.number,
                why,
            });
        }
        seen = seen_behind(seen, line.words.as_slice());
        rest = behind;
    }
    None
}

// Why a line doesn't fit, behind these options.
fn line_why(seen: Seen, words: &[Text]) -> Option<DirectiveWhy>
    ensures { result ≡ line_why seen words.now }
{
    let Some((word, behind)) = words.split_first() else {
        return Some(DirectiveWhy::Option);
    };
    match opened(word) {
        Opens::Prefix => once(seen.prefix, prefix_why(behind)),
        Opens::AllowIpv4 => once(seen.allow_ipv4, empty_why(behind)),
        Opens::Ptr => once(seen.ptr, empty_why(behind)),
        Opens::Nothing => Some(DirectiveWhy::Option),
    }
}

// Why words aren't just one prefix.
fn prefix_why(words: &[Text]) -> Option<DirectiveWhy>
    ensures { result ≡ prefix_why words.now }
{
    let Some((word, behind)) = words.split_first() else {
        return Some(DirectiveWhy::Args);
    };
    if read_prefix(word).is_none() {
        return Some(DirectiveWhy::Net);
    }
    empty_why(behind)
}
