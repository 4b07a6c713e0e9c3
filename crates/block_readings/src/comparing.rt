//! Whether two blocks read the same.
ghost use Rattle.std.specs.Prelude.{◌≡◌, ◌↔◌, IsTrue, ◌&&◌};
ghost use Rattle.std.specs.Cmp.Lexicographic.{pointwise};
ghost use Rattle.std.specs.List.{All, filter};
ghost use Rattle.corefile_blocks.specs.WantedFiles.{is_path};
ghost use Rattle.corefile_blocks.specs.Readable.{HasShortBytes};
ghost use Rattle.block_readings.specs.Readings.{block_reading, directive_names, names_in};
ghost use Rattle.block_readings.specs.Same.{find_same, finds_same, reads_same, same_block};
ghost use Rattle.block_readings.specs.Same.{same_directive, same_key, same_line, same_lines};
ghost use Rattle.block_readings.specs.Same.{same_word, same_words};

use corefile_blocks::{file_of, hosts_word};
use dns_data::{Block, BlockKey, Directive, FileText, Line, Text, are_equal};

/// A block, and the files of its bundle.
#[derive(Clone, Copy, Drop)]
pub struct BlockIn<'a> {
    pub files: &'a [FileText],
    pub block: &'a Block,
}

/// Whether two blocks read the same: their keys and directives but for the numbers of their lines,
/// and the files that their directives name.
#[tactic(auto, using(crate::specs::SameLaws::exact_reading))]
pub fn read_the_same(one: BlockIn<'_>, other: BlockIn<'_>) -> bool
    requires one { All HasShortBytes one.files.now }
    requires other { All HasShortBytes other.files.now }
    ensures test { result ≡ reads_same one.entry.files.now one.entry.block.now
        other.entry.files.now other.entry.block.now }
    ensures same { IsTrue result ↔ (block_reading one.entry.files.now one.entry.block.now
        ≡ block_reading other.entry.files.now other.entry.block.now) }
{
    pass_the_test(one, other)
}

fn pass_the_test(one: BlockIn<'_>, other: BlockIn<'_>) -> bool
    requires one { All HasShortBytes one.files.now }
    requires other { All HasShortBytes other.files.now }
    ensures { result ≡ reads_same one.entry.files.now one.entry.block.now
        other.entry.files.now other.entry.block.now }
{
    is_same_block(one.block, other.block)
        && find_the_same(one.files, other.files, one.block.directives.as_slice())
}

fn is_same_block(block: &Block, other: &Block) -> bool
    ensures { result ≡ same_block block.now other.now }
{
    are_same_keys(block.keys.as_slice(), other.keys.as_slice())
        && are_same_directives(block.directives.as_slice(), other.directives.as_slice())
}

fn are_same_keys(keys: &[BlockKey], others: &[BlockKey]) -> bool
    ensures { result ≡ pointwise same_key keys.now others.now }
{
    let mut rest = others;
    for key in keys {
        let Some((other, behind)) = rest.split_first() else {
            return false;
        };
        if !is_same_key(key, other) {
            return false;
        }
        rest = behind;
    }
    rest.is_empty()
}

fn is_same_key(key: &BlockKey, other: &BlockKey) -> bool
    ensures { result ≡ same_key key.now other.now }
{
    key.zone.equals(&other.zone) && key.port == other.port
}

fn are_same_directives(directives: &[Directive], others: &[Directive]) -> bool
    ensures { result ≡ pointwise same_directive directives.now others.now }
{
    let mut rest = others;
    for directive in directives {
        let Some((other, behind)) = rest.split_first() else {
            return false;
        };
        if !is_same_directive(directive, other) {
            return false;
        }
        rest = behind;
    }
    rest.is_empty()
}

fn is_same_directive(directive: &Directive, other: &Directive) -> bool
    ensures { result ≡ same_directive directive.now other.now }
{
    directive.name.as_str() == other.name.as_str()
        && are_same_words(directive.args.as_slice(), other.args.as_slice())
        && are_same_lines(directive.body.as_slice(), other.body.as_slice())
}

fn are_same_lines(lines: &[Line], others: &[Line]) -> bool
    ensures { result ≡ same_lines lines.now others.now }
{
    let mut rest = others;
    for line in lines {
        let Some((other, behind)) = rest.split_first() else {
            return false;
        };
        if !are_same_words(line.words.as_slice(), other.words.as_slice()) {
            return false;
        }
        rest = behind;
    }
    rest.is_empty()
}

fn are_same_words(words: &[Text], others: &[Text]) -> bool
    ensures { result ≡ same_words words.now others.now }
{
    let mut rest = others;
    for word in words {
        let Some((other, behind)) = rest.split_first() else {
            return false;
        };
        if word.as_str() != other.as_str() {
            return false;
        }
        rest = behind;
    }
    rest.is_empty()
}

// Whether two bundles have the same under each name of a file that directives have.
fn find_the_same(files: &[FileText], others: &[FileText], directives: &[Directive]) -> bool
    requires files { All HasShortBytes files.now }
    requires others { All HasShortBytes others.now }
    ensures { result ≡ find_same files.now others.now (names_in directives.now) }
{
    for directive in directives {
        if !finds_all(files, others, directive) {
            return false;
        }
    }
    true
}

#[tactic(auto, using(crate::specs::SameLaws::named_files))]
fn finds_all(files: &[FileText], others: &[FileText], directive: &Directive) -> bool
    requires files { All HasShortBytes files.now }
    requires others { All HasShortBytes others.now }
    ensures { result ≡ find_same files.now others.now (directive_names directive.now) }
{
    let name = directive.name.as_str();
    let words = directive.args.as_slice();
    if name == "file" {
        return match words.split_first() {
            Some((file, _)) => finds_same(files, others, file.as_str()),
            None => true,
        };
    }
    if name == "hosts" {
        return finds_same(files, others, hosts_word(words));
    }
    if name == "forward" {
        return match words.split_first() {
            Some((_, upstreams)) => finds_paths(files, others, upstreams),
            None => true,
        };
    }
    true
}

// The same of words that are paths.
fn finds_paths(files: &[FileText], others: &[FileText], words: &[Text]) -> bool
    requires files { All HasShortBytes files.now }
    requires others { All HasShortBytes others.now }
    ensures { result ≡ find_same files.now others.now (filter is_path words.now) }
{
    for word in words {
        if is_path(word.as_str()) && !finds_same(files, others, word.as_str()) {
            return false;
        }
    }
    true
}

fn is_path(text: &str) -> bool
    ensures { result ≡ is_path text.now }
{
    match text.as_bytes().first() {
        Some(byte) => *byte == b'/',
        None => false,
    }
}

// Whether two bundles have the same under a name.
fn finds_same(files: &[FileText], others: &[FileText], name: &str) -> bool
    requires files { All HasShortBytes files.now }
    requires others { All HasShortBytes others.now }
    ensures { result ≡ finds_same files.now others.now name.now }
{
    match (file_of(files, name), file_of(others, name)) {
        (None, None) => true,
        (Some(bytes), Some(other)) => is_same_text(bytes, other),
        _ => false,
    }
}

fn is_same_text(bytes: &[u8], other: &[u8]) -> bool
    ensures { result ≡ same_word bytes.now other.now }
{
    are_equal(bytes, other)
}
