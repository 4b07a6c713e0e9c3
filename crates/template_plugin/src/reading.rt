ghost use Rattle.std.specs.Prelude.{◌≡◌, ◌||◌, codes, IfOk};
ghost use Rattle.template_plugin.specs.Reading.{class_why, kind_why, rcode_why, text_why};
ghost use Rattle.template_plugin.specs.Reading.{words_why};
ghost use Rattle.plugin_api.specs.{is_word};

use crate::piece_read::read_pieces;
use dns_data::{Names, NoMemory, Text};
use plugin_api::{DirectiveWhy, empty_why};
use std::alloc::Global;
use type_names::{read_kind, read_rcode};
use zone_words::read_zones;

/// Why the words of a directive don't fit: a class, a type, and zones.
pub(crate) fn words_why(
    alloc: Global,
    zones: &Names,
    words: &[Text],
) -> Result<Option<DirectiveWhy>, NoMemory>
    ensures { IfOk result (λ why. why ≡ words_why zones.now words.now) }
{
    let Some((class, rest)) = words.split_first() else {
        return Ok(Some(DirectiveWhy::Args));
    };
    if !is_class(class) {
        return Ok(Some(DirectiveWhy::Option));
    }
    kind_why(alloc, zones, rest)
}

// Whether a word is a class of which a template may be.
fn is_class(word: &Text) -> bool
    ensures { result ≡ (is_word word.now (codes "IN") || is_word word.now (codes "ANY")) }
{
    let bytes = word.as_str().as_bytes();
    if bytes == b"IN".as_slice() {
        return true;
    }
    bytes == b"ANY".as_slice()
}

fn kind_why(alloc: Global, zones: &Names, words: &[Text]) -> Result<Option<DirectiveWhy>, NoMemory>
    ensures { IfOk result (λ why. why ≡ kind_why zones.now words.now) }
{
    let Some((kind, rest)) = words.split_first() else {
        return Ok(Some(DirectiveWhy::Args));
    };
    if read_kind(kind.as_str().as_bytes()).is_none() {
        return Ok(Some(DirectiveWhy::Kind));
    }
    match read_zones(alloc, zones, rest)? {
        Some(_) => Ok(None),
        None => Ok(Some(DirectiveWhy::Zone)),
    }
}

/// Why the words behind the name of a section don't fit: one text.
pub(crate) fn text_why(alloc: Global, words: &[Text]) -> Result<Option<DirectiveWhy>, NoMemory>
    ensures { IfOk result (λ why. why ≡ text_why words.now) }
{
    let Some((word, rest)) = words.split_first() else {
        return Ok(Some(DirectiveWhy::Args));
    };
    if read_pieces(alloc, word.as_str().as_bytes())?.is_none() {
        return Ok(Some(DirectiveWhy::Place));
    }
    Ok(empty_why(rest))
}

pub(crate) fn rcode_why(words: &[Text]) -> Option<DirectiveWhy>
    ensures { result ≡ rcode_why words.now }
{
    let Some((word, rest)) = words.split_first() else {
        return Some(DirectiveWhy::Args);
    };
    if read_rcode(word.as_str().as_bytes()).is_none() {
        return Some(DirectiveWhy::Option);
    }
    empty_why(rest)
}
