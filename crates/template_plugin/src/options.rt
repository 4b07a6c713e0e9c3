ghost use Rattle.std.specs.Prelude.{◌≡◌};
ghost use Rattle.template_plugin.specs.Reading.{is_match, opened, seen_with};

use dns_data::Text;

/// What a line of the body without patterns is, by its first word.
#[derive(Clone, Copy, Debug, PartialEq, Eq)]
pub enum Opens {
    /// A text of a section.
    Text,
    Rcode,
    Fallthrough,
    /// None of these.
    Other,
}

/// Which options stood in lines before.
#[derive(Clone, Copy, Debug, PartialEq, Eq)]
pub struct Seen {
    pub rcode: bool,
    pub fallthrough: bool,
}

/// What stood before a line: options that may stand once, and so many patterns of the
/// configuration.
#[derive(Clone, Copy, Debug, PartialEq, Eq)]
pub struct Earlier {
    pub seen: Seen,
    pub patterns: usize,
}

/// Whether patterns stand behind a word.
pub(crate) fn is_match(word: &Text) -> bool
    ensures { result ≡ is_match word.now }
{
    word.as_str().as_bytes() == b"match".as_slice()
}

/// What a line without patterns is that begins with this word.
pub(crate) fn opened(word: &Text) -> Opens
    ensures { result ≡ opened word.now }
{
    match word.as_str() {
        "answer" | "additional" | "authority" => Opens::Text,
        "rcode" => Opens::Rcode,
        "fallthrough" => Opens::Fallthrough,
        _ => Opens::Other,
    }
}

/// With the option that a line opens.
pub(crate) fn seen_with(seen: Seen, opens: Opens) -> Seen
    ensures { result ≡ seen_with seen opens }
{
    match opens {
        Opens::Text => seen,
        Opens::Rcode => Seen {
            rcode: true,
            ..seen
        },
        Opens::Fallthrough => Seen {
            fallthrough: true,
            ..seen
        },
        Opens::Other => seen,
    }
}
