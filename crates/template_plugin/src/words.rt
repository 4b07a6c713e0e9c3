ghost use Rattle.std.specs.Prelude.{◌≡◌, ◌<◌};
ghost use Rattle.template_plugin.specs.Words.{named_rcode, rcode_of, words_after};

use dns_data::{Line, Text, rcode};
use type_names::read_rcode;

/// The words behind the first, where that is this one; none else.
pub(crate) fn words_after<'a>(option: &[u8], words: &'a [Text]) -> &'a [Text]
    ensures { result.now ≡ words_after option.now words.now }
{
    let Some((word, behind)) = words.split_first() else {
        return words;
    };
    if word.as_str().as_bytes() == option {
        return behind;
    }
    &[]
}

/// The RCODE of an answer.
pub(crate) fn rcode_of(lines: &[Line]) -> u8
    ensures value { result ≡ rcode_of lines.now }
    ensures small { result < 16 }
{
    let mut rest = lines;
    while let Some((line, behind)) = rest.split_first() {
        if let Some((word, _)) = words_after(b"rcode", line.words.as_slice()).split_first() {
            return named_rcode(word);
        }
        rest = behind;
    }
    rcode::NOERROR
}

// The RCODE that a word names.
fn named_rcode(word: &Text) -> u8
    ensures value { result ≡ named_rcode word.now }
    ensures small { result < 16 }
{
    read_rcode(word.as_str().as_bytes()).unwrap_or(rcode::NOERROR)
}
