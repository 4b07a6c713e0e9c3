ghost use Rattle.std.specs.Prelude.{◌≡◌};
ghost use Rattle.acl_plugin.specs.Lines.{all_at, ends_part, is_star, opened, part_behind};
ghost use Rattle.acl_plugin.specs.Lines.{takes_all};

use dns_data::Text;

/// The part of a policy's line in which a word stands: behind the action, behind `type`, or behind
/// `net`.
#[derive(Clone, Copy, Debug, PartialEq, Eq)]
pub enum Part {
    Front,
    Types,
    Nets,
}

/// The part that a word opens.
pub(crate) fn opened(word: &Text) -> Option<Part>
    ensures { result ≡ opened word.now }
{
    let bytes = word.as_str().as_bytes();
    if bytes == b"type".as_slice() {
        return Some(Part::Types);
    }
    if bytes == b"net".as_slice() {
        return Some(Part::Nets);
    }
    None
}

/// The part behind a word.
pub(crate) fn part_behind(part: Part, word: &Text) -> Part
    ensures { result ≡ part_behind part word.now }
{
    match opened(word) {
        Some(next) => next,
        None => part,
    }
}

/// Whether a word is `*`.
pub(crate) fn is_star(word: &Text) -> bool
    ensures { result ≡ is_star word.now }
{
    word.as_str().as_bytes() == b"*".as_slice()
}

/// Whether a part ends before these words.
fn ends_part(words: &[Text]) -> bool
    ensures { result ≡ ends_part words.now }
{
    match words.first() {
        Some(word) => opened(word).is_some(),
        None => true,
    }
}

/// Whether a policy of these words takes all of a kind of part: where it has none of them, or one
/// without words, or one with `*`.
#[tactic(auto, unfolding(crate::specs::Lines::takes_all))]
pub(crate) fn takes_all(want: Part, words: &[Text]) -> bool
    ensures { result ≡ takes_all want words.now }
{
    let mut part = Part::Front;
    let mut named = false;
    let mut all = false;
    let mut rest = words;
    while let Some((word, behind)) = rest.split_first() {
        named = opened(word) == Some(want) || named;
        all = all_at(want, part, word, behind) || all;
        part = part_behind(part, word);
        rest = behind;
    }
    !named || all
}

// Whether a word makes its part take all: it opens one without words, or is `*`.
fn all_at(want: Part, part: Part, word: &Text, behind: &[Text]) -> bool
    ensures { result ≡ all_at want part word.now behind.now }
{
    match opened(word) {
        Some(next) => next == want && ends_part(behind),
        None => part == want && is_star(word),
    }
}
