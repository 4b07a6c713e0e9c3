ghost use Rattle.std.specs.Prelude.{◌≡◌, ◌<◌, ◌≤◌, ◌+◌, ◌^◌, ℕ, option_map, slice_range};
ghost use Rattle.corefile_blocks.specs.LineForms.{begins_import, block_form, body_form, closes};
ghost use Rattle.corefile_blocks.specs.LineForms.{directive_form, form_at, has_brace, header_form};
ghost use Rattle.corefile_blocks.specs.LineForms.{import_form, in_parentheses, inner_form};
ghost use Rattle.corefile_blocks.specs.LineForms.{is_close};
ghost use Rattle.corefile_blocks.specs.LineForms.{nesting, nesting_behind};
ghost use Rattle.corefile_blocks.specs.LineForms.{is_open, opened, outer_form, same_text};
ghost use Rattle.corefile_blocks.specs.LineForms.{snippet_form, snippet_name, unless_brace};

use crate::BlockWhy;
use crate::place::{LineForm, Place};
use corefile_words::Word;

/// What a line is, by the place where it stands.
#[tactic(auto, unfolding(crate::specs::LineForms::form_at))]
pub(crate) fn form_at(place: Place, words: &[Word]) -> LineForm
    requires { nesting place + 1 < 2 ^ 32 }
    ensures form { result ≡ form_at place words.now }
    ensures nesting { nesting_behind result ≤ nesting place + 1 }
{
    match place {
        Place::Top => outer_form(words),
        Place::Block { line: _ } => block_form(words),
        Place::Body { block: _, line: _ } => body_form(words),
        Place::Snippet { line: _, nested } => snippet_form(nested, words),
    }
}

fn outer_form(words: &[Word]) -> LineForm
    ensures form { result ≡ outer_form words.now (snippet_name words.now) }
    ensures nesting { nesting_behind result ≡ 0 }
{
    if snippet_name(words).is_some() {
        return LineForm::SnippetHeader;
    }
    if begins_import(words) {
        return import_form(words);
    }
    match opened(words) {
        None => unless_brace(words, LineForm::Refused(BlockWhy::Outside)),
        Some(keys) => unless_brace(keys, LineForm::Header),
    }
}

fn block_form(words: &[Word]) -> LineForm
    ensures form { result ≡ block_form words.now }
    ensures nesting { nesting_behind result ≡ 0 }
{
    if begins_import(words) {
        return import_form(words);
    }
    if closes(words) {
        return LineForm::BlockEnd;
    }
    match opened(words) {
        None => unless_brace(words, LineForm::Directive),
        Some(front) => {
            if front.len() == 0 {
                return LineForm::Refused(BlockWhy::StrayBrace);
            }
            unless_brace(front, LineForm::DirectiveHeader)
        }
    }
}

fn body_form(words: &[Word]) -> LineForm
    ensures form { result ≡ body_form words.now }
    ensures nesting { nesting_behind result ≡ 0 }
{
    if closes(words) {
        return LineForm::BodyEnd;
    }
    match opened(words) {
        None => unless_brace(words, LineForm::BodyLine),
        Some(_) => LineForm::Refused(BlockWhy::DeepBrace),
    }
}

fn snippet_form(nested: u32, words: &[Word]) -> LineForm
    requires { nested + 1 < 2 ^ 32 }
    ensures form { result ≡ snippet_form nested words.now }
    ensures nesting { nesting_behind result ≤ nested + 1 }
{
    if closes(words) {
        if nested == 0 {
            return LineForm::SnippetEnd;
        }
        return LineForm::SnippetLine { nested: nested - 1 };
    }
    match opened(words) {
        None => LineForm::SnippetLine { nested },
        Some(_) => LineForm::SnippetLine { nested: nested + 1 },
    }
}

// A line that begins with `import`.
fn import_form(words: &[Word]) -> LineForm
    ensures form { result ≡ import_form words.now }
    ensures nesting { nesting_behind result ≡ 0 }
{
    if words.len() == 2 && !words[1].brace {
        return LineForm::Import;
    }
    LineForm::Refused(BlockWhy::ImportArgs)
}

// The line, where none of its words is a brace.
fn unless_brace(words: &[Word], line: LineForm) -> LineForm
    ensures form { result ≡ unless_brace words.now line }
    ensures nesting { nesting_behind result ≤ nesting_behind line }
{
    if has_brace(words) {
        return LineForm::Refused(BlockWhy::StrayBrace);
    }
    line
}

fn has_brace(words: &[Word]) -> bool
    ensures { result ≡ has_brace words.now }
{
    for word in words {
        if word.brace {
            return true;
        }
    }
    false
}

/// The name of the snippet that a line `(NAME) {` begins.
pub(crate) fn snippet_name(words: &[Word]) -> Option<&[u8]>
    ensures { option_map (λ name. name.now) result ≡ snippet_name words.now }
{
    let (name, words) = words.split_first()?;
    let (brace, words) = words.split_first()?;
    if 0 < words.len() {
        return None;
    }
    if !is_open(brace) {
        return None;
    }
    in_parentheses(name.text.as_str().as_bytes())
}

// What stands between a `(` and a `)`.
fn in_parentheses(text: &[u8]) -> Option<&[u8]>
    ensures { option_map (λ name. name.now) result ≡ in_parentheses text.now }
{
    if text.len() < 2 || text[0] != b'(' || text[text.len() - 1] != b')' {
        return None;
    }
    Some(&text[1..text.len() - 1])
}

// Whether the first word is `import`, quoted or not.
fn begins_import(words: &[Word]) -> bool
    ensures { result ≡ begins_import words.now }
{
    match words.first() {
        Some(word) => word.text.as_str() == "import",
        None => false,
    }
}

/// The words before a `{` that ends the line.
pub(crate) fn opened(words: &[Word]) -> Option<&[Word]>
    ensures { option_map (λ front. front.now) result ≡ opened words.now }
{
    let (last, front) = words.split_last()?;
    if is_open(last) {
        return Some(front);
    }
    None
}

// A `}` alone.
fn closes(words: &[Word]) -> bool
    ensures { result ≡ closes words.now }
{
    words.len() == 1 && is_close(&words[0])
}

fn is_open(word: &Word) -> bool
    ensures { result ≡ is_open word.now }
{
    word.brace && word.text.as_str() == "{"
}

fn is_close(word: &Word) -> bool
    ensures { result ≡ is_close word.now }
{
    word.brace && word.text.as_str() == "}"
}
