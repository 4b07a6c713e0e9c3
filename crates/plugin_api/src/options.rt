ghost use Rattle.std.specs.Prelude.{◌≡◌, option_map};
ghost use Rattle.plugin_api.specs.Options.{empty_why, once, option_in, words_behind};

use crate::DirectiveWhy;
use dns_data::{Line, Text};

/// The words of the first line that begins with an option.
pub fn option_in<'a>(lines: &'a [Line], option: &[u8]) -> Option<&'a [Text]>
    ensures { option_map (λ words. words.now) result ≡ option_in option.now lines.now }
{
    let mut rest = lines;
    while let Some((line, behind)) = rest.split_first() {
        if let Some(words) = words_behind(line.words.as_slice(), option) {
            return Some(words);
        }
        rest = behind;
    }
    None
}

/// The words behind the first, where that is this one.
pub fn words_behind<'a>(words: &'a [Text], option: &[u8]) -> Option<&'a [Text]>
    ensures { option_map (λ words. words.now) result ≡ words_behind option.now words.now }
{
    let (word, behind) = words.split_first()?;
    if word.as_str().as_bytes() == option {
        return Some(behind);
    }
    None
}

/// Why words don't fit where none may stand.
pub fn empty_why(words: &[Text]) -> Option<DirectiveWhy>
    ensures { result ≡ empty_why words.now }
{
    if words.is_empty() {
        return None;
    }
    Some(DirectiveWhy::Args)
}

/// Why an option doesn't fit that may stand once.
pub fn once(seen: bool, why: Option<DirectiveWhy>) -> Option<DirectiveWhy>
    ensures { result ≡ once seen why }
{
    if seen {
        return Some(DirectiveWhy::Args);
    }
    why
}
