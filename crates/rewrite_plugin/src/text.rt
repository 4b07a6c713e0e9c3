ghost use Rattle.std.specs.Prelude.{◌≡◌, ◌++◌, ◌≤◌, ◌<◌, ◌+◌, ℕ, true, length, drop, IfSome, OnOk};
ghost use Rattle.std.specs.Char.{is_ascii_digit};
ghost use Rattle.pattern.specs.Searches.{IsPartOf, scratch_group};
ghost use Rattle.plugin_api.specs.{is_word};
ghost use Rattle.rewrite_plugin.specs.Texts.{begins, ends, filled, has_part, part_at, place_at};
ghost use Rattle.rewrite_plugin.specs.Texts.{place_behind, replaced, spanned, two_digits};

use dns_data::{Buffer, NoMemory, are_equal};
use pattern::Scratch;

/// Whether a text is another one.
pub(crate) fn is_text(text: &[u8], other: &[u8]) -> bool
    ensures { result ≡ is_word text.now other.now }
{
    are_equal(text, other)
}

/// Whether a text begins with another one.
pub(crate) fn begins(front: &[u8], text: &[u8]) -> bool
    ensures { result ≡ begins front.now text.now }
{
    front.len() <= text.len() && is_text(&text[..front.len()], front)
}

/// Whether a text ends with another one.
pub(crate) fn ends(end: &[u8], text: &[u8]) -> bool
    ensures { result ≡ ends end.now text.now }
{
    end.len() <= text.len() && is_text(&text[text.len() - end.len()..], end)
}

/// Whether another text stands in a text.
pub(crate) fn has_part(part: &[u8], text: &[u8]) -> bool
    ensures { result ≡ has_part part.now text.now }
{
    let mut rest = text;
    while let Some((_, behind)) = rest.split_first() {
        if begins(part, rest) {
            return true;
        }
        rest = behind;
    }
    false
}

/// Adds a text with another one in place of each part that is so.
#[tactic(auto, unfolding(crate::specs::Texts::replaced))]
pub(crate) fn append_replaced(
    part: &[u8],
    to: &[u8],
    text: &[u8],
    out: &mut Buffer,
) -> Result<(), NoMemory>
    ensures { OnOk result (out.new ≡ out.old ++ replaced part.now to.now text.now) }
{
    let mut rest = text;
    while let Some((byte, behind)) = rest.split_first() {
        match part_at(part, rest) {
            Some(skip) => {
                out.append(to)?;
                rest = behind_skip(behind, skip);
            }
            None => {
                out.append(&[*byte])?;
                rest = behind;
            }
        }
    }
    Ok(())
}

fn behind_skip(text: &[u8], skip: usize) -> &[u8]
    requires { skip ≤ length text.now }
    ensures { result.now ≡ drop skip text.now }
{
    &text[skip..]
}

// Where a part stands at the front of a text: how many bytes behind the first belong to it.
fn part_at(part: &[u8], text: &[u8]) -> Option<usize>
    requires { 0 < length text.now }
    ensures value { result ≡ part_at part.now text.now }
    ensures inside { IfSome result (λ skip. skip + 1 ≤ length text.now) }
{
    if !begins(part, text) {
        return None;
    }
    if part.is_empty() {
        return Some(0);
    }
    Some(part.len() - 1)
}

/// Adds a text with its places filled in, by the groups of the last search in another text.
#[tactic(auto, using(crate::proofs::Skips::filled_skip), unfolding(crate::specs::Texts::filled))]
pub(crate) fn append_filled(
    scratch: &Scratch,
    text: &str,
    to: &[u8],
    out: &mut Buffer,
) -> Result<(), NoMemory>
    requires { (n : ℕ) → IfSome (scratch_group scratch.now n) (IsPartOf text.now) }
    ensures { OnOk result
        (out.new ≡ out.old ++ filled (scratch_group scratch.now) text.now to.now) }
{
    let mut rest = to;
    while let Some((byte, behind)) = rest.split_first() {
        match place_at(*byte, behind) {
            Some((number, size)) => {
                append_group(scratch, text, number, out)?;
                rest = &behind[size..];
            }
            None => {
                out.append(&[*byte])?;
                rest = behind;
            }
        }
    }
    Ok(())
}

// Adds what a group spans of the text; nothing where it took no part.
fn append_group(
    scratch: &Scratch,
    text: &str,
    number: usize,
    out: &mut Buffer,
) -> Result<(), NoMemory>
    requires { IfSome (scratch_group scratch.now number) (IsPartOf text.now) }
    ensures { OnOk result
        (out.new ≡ out.old ++ spanned text.now (scratch_group scratch.now number)) }
{
    match scratch.part(text, number) {
        Some(part) => out.append(part.as_bytes()),
        None => Ok(()),
    }
}

// The place at a byte: the number of a group, and how many bytes behind it belong to the place.
fn place_at(byte: u8, behind: &[u8]) -> Option<(usize, usize)>
    ensures value { result ≡ place_at byte behind.now }
    ensures inside { IfSome result (λ place. place.1 ≤ length behind.now) }
{
    if byte == b'{' {
        return place_behind(behind);
    }
    None
}

fn place_behind(text: &[u8]) -> Option<(usize, usize)>
    ensures value { result ≡ place_behind text.now }
    ensures inside { IfSome result (λ place. place.1 ≤ length text.now) }
{
    let (first, behind) = text.split_first()?;
    let (second, rest) = behind.split_first()?;
    if !first.is_ascii_digit() {
        return None;
    }
    if *second == b'}' {
        return Some((usize::from(*first - b'0'), 2));
    }
    two_digits(*first, *second, rest)
}

fn two_digits(first: u8, second: u8, rest: &[u8]) -> Option<(usize, usize)>
    requires { is_ascii_digit first ≡ true }
    ensures value { result ≡ two_digits first second rest.now }
    ensures inside { IfSome result (λ place. place.1 ≤ length rest.now + 2) }
{
    let (third, _) = rest.split_first()?;
    if second.is_ascii_digit() && *third == b'}' {
        let number = 10 * usize::from(first - b'0') + usize::from(second - b'0');
        return Some((number, 3));
    }
    None
}
