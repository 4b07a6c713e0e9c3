ghost use Rattle.std.specs.Prelude.{◌≡◌, ◌++◌, ◌-◌, [], true, length, take, drop, IfOk, OnOk};
ghost use Rattle.dns_data.specs.{name_of};
ghost use Rattle.plugin_api.specs.{is_word};
ghost use Rattle.rewrite_plugin.specs.declared.rule.Matcher.TheVariants as matcher;
ghost use Rattle.rewrite_plugin.specs.Renaming.{Becomes};
ghost use Rattle.rewrite_plugin.specs.Rules.{is_matched, renamed_text, searched};
ghost use Rattle.rewrite_plugin.specs.Rules.{turned};
ghost use Rattle.rewrite_plugin.specs.Texts.{begins, ends, has_part, replaced};

use crate::finder::Finder;
use crate::room::Turning;
use crate::rule::{Matcher, Renaming};
use crate::text::{append_replaced, begins, ends, has_part, is_text};
use dns_data::{Buffer, Bytes, Name, NameFault, NoMemory, Text};
use pattern::Scratch;
use std::alloc::Global;

/// Becomes the text of a name that rules look at: in small letters, with its last dot.
pub(crate) fn write_searched(alloc: Global, name: &Name, text: &mut Text) -> Result<(), NoMemory>
    ensures { OnOk result (text.new ≡ searched name.now) }
{
    name.write_lower(alloc, text)
}

/// A name becomes the one that a text becomes; false where the text doesn't match, or the result is
/// no name, and the name stays.
#[tactic(auto, unfolding(crate::specs::Rules::renamed_text))]
pub(crate) fn rename_to(
    alloc: Global,
    renaming: &Renaming<Finder>,
    text: &str,
    room: &mut Turning,
    name: &mut Name,
) -> Result<bool, NoMemory>
    ensures { IfOk result (λ done.
        Becomes (renamed_text renaming.now.from renaming.now.to text.now) done name.old name.new) }
{
    room.out.clear();
    let (from, to) = (&renaming.from, &renaming.to);
    if !turn(from, to, text, &mut room.scratch, &mut room.out)? {
        return Ok(false);
    }
    set_name(alloc, room.out.as_slice(), name)
}

// A name becomes the one that a text spells below the root; false where it spells none.
fn set_name(alloc: Global, text: &[u8], name: &mut Name) -> Result<bool, NoMemory>
    ensures { IfOk result (λ done. Becomes (name_of text.now []) done name.old name.new) }
{
    match name.set_read(alloc, text, &Name::root(alloc)) {
        Ok(()) => Ok(true),
        Err(NameFault::Bad) => Ok(false),
        Err(NameFault::NoMemory) => Err(NoMemory),
    }
}

/// The name that a text becomes by a pattern; None where it isn't found, or the result is no name.
#[tactic(auto, unfolding(crate::specs::Rules::renamed_text))]
pub(crate) fn renamed_by(
    alloc: Global,
    finder: &Finder,
    to: &Bytes,
    text: &str,
    room: &mut Turning,
) -> Result<Option<Name>, NoMemory>
    ensures { IfOk result (λ name. name ≡ renamed_text (matcher.Regex finder.now) to.now text.now) }
{
    room.out.clear();
    if !finder.fill(&mut room.scratch, text, to.as_slice(), &mut room.out)? {
        return Ok(None);
    }
    read_name(alloc, room.out.as_slice())
}

// The name that a text spells below the root.
fn read_name(alloc: Global, text: &[u8]) -> Result<Option<Name>, NoMemory>
    ensures { IfOk result (λ name. name ≡ name_of text.now []) }
{
    match Name::read(alloc, text, &Name::root(alloc)) {
        Ok(name) => Ok(Some(name)),
        Err(NameFault::Bad) => Ok(None),
        Err(NameFault::NoMemory) => Err(NoMemory),
    }
}

// Adds what a text becomes in which it stands; false where it doesn't.
fn turn(
    from: &Matcher<Finder>,
    to: &Bytes,
    text: &str,
    scratch: &mut Scratch,
    out: &mut Buffer,
) -> Result<bool, NoMemory>
    ensures matched { IfOk result (λ matched. matched ≡ is_matched from.now text.now) }
    ensures turned { OnOk result (is_matched from.now text.now ≡ true
        → out.new ≡ out.old ++ turned from.now to.now text.now) }
{
    let bytes = text.as_bytes();
    match from {
        Matcher::Exact(from) => turn_exact(from.as_slice(), to, bytes, out),
        Matcher::Prefix(from) => turn_prefix(from.as_slice(), to, bytes, out),
        Matcher::Suffix(from) => turn_suffix(from.as_slice(), to, bytes, out),
        Matcher::Substring(from) => turn_substring(from.as_slice(), to, bytes, out),
        Matcher::Regex(finder) => finder.fill(scratch, text, to.as_slice(), out),
    }
}

fn turn_exact(from: &[u8], to: &Bytes, text: &[u8], out: &mut Buffer) -> Result<bool, NoMemory>
    ensures matched { IfOk result (λ matched. matched ≡ is_word text.now from.now) }
    ensures turned { OnOk result (is_word text.now from.now ≡ true
        → out.new ≡ out.old ++ to.now) }
{
    if !is_text(text, from) {
        return Ok(false);
    }
    out.append(to.as_slice())?;
    Ok(true)
}

fn turn_prefix(from: &[u8], to: &Bytes, text: &[u8], out: &mut Buffer) -> Result<bool, NoMemory>
    ensures matched { IfOk result (λ matched. matched ≡ begins from.now text.now) }
    ensures turned { OnOk result (begins from.now text.now ≡ true
        → out.new ≡ out.old ++ (to.now ++ drop (length from.now) text.now)) }
{
    if !begins(from, text) {
        return Ok(false);
    }
    out.append(to.as_slice())?;
    out.append(&text[from.len()..])?;
    Ok(true)
}

fn turn_suffix(from: &[u8], to: &Bytes, text: &[u8], out: &mut Buffer) -> Result<bool, NoMemory>
    ensures matched { IfOk result (λ matched. matched ≡ ends from.now text.now) }
    ensures turned { OnOk result (ends from.now text.now ≡ true
        → out.new ≡ out.old ++ (take (length text.now - length from.now) text.now ++ to.now)) }
{
    if !ends(from, text) {
        return Ok(false);
    }
    out.append(&text[..text.len() - from.len()])?;
    out.append(to.as_slice())?;
    Ok(true)
}

fn turn_substring(from: &[u8], to: &Bytes, text: &[u8], out: &mut Buffer) -> Result<bool, NoMemory>
    ensures matched { IfOk result (λ matched. matched ≡ has_part from.now text.now) }
    ensures turned { OnOk result (has_part from.now text.now ≡ true
        → out.new ≡ out.old ++ replaced from.now to.now text.now) }
{
    if !has_part(from, text) {
        return Ok(false);
    }
    append_replaced(from, to.as_slice(), text, out)?;
    Ok(true)
}

/// Whether what is sought stands in a text.
pub(crate) fn is_matched(
    from: &Matcher<Finder>,
    text: &str,
    room: &mut Turning,
) -> Result<bool, NoMemory>
    ensures { IfOk result (λ matched. matched ≡ is_matched from.now text.now) }
{
    let bytes = text.as_bytes();
    match from {
        Matcher::Exact(from) => Ok(is_text(bytes, from.as_slice())),
        Matcher::Prefix(from) => Ok(begins(from.as_slice(), bytes)),
        Matcher::Suffix(from) => Ok(ends(from.as_slice(), bytes)),
        Matcher::Substring(from) => Ok(has_part(from.as_slice(), bytes)),
        Matcher::Regex(finder) => finder.search(&mut room.scratch, text),
    }
}
