ghost use Rattle.std.specs.Prelude.{◌≡◌, ◌<◌, ◌≤◌, ◌+◌, length, slice_index, IfOk, IfSome};
ghost use Rattle.std.specs.Prelude.{option_copied};
ghost use Rattle.std.specs.Str.{IsUtf8};
ghost use Rattle.corefile_words.specs.Lines.{before};
ghost use Rattle.corefile_words.specs.Variables.{IsClosedAt, is_other, name_in, variable_at};
ghost use Rattle.corefile_words.specs.Variables.{value_of, filled};

use crate::Pair;
use dns_data::{NoMemory, Text};
use std::alloc::Global;

/// A word with the environment's values in place of its variables.
pub(crate) fn filled(alloc: Global, word: &[u8], env: &[Pair]) -> Result<Text, NoMemory>
    requires { IsUtf8 word.now }
    ensures { IfOk result (λ text. text ≡ filled env.now word.now) }
{
    let mut text = Vec::new(alloc);
    let mut rest = word;
    while let Some((byte, behind)) = rest.split_first() {
        if let Some(name) = variable_at(rest) {
            text.extend_from_slice(value_of(env, name).as_bytes())?;
            rest = &behind[name.len() + 2..];
        } else {
            text.push(*byte)?;
            rest = behind;
        }
    }
    Ok(Text::of(String::from_utf8(text).unwrap()))
}

// The NAME of a `{$NAME}` at the head.
fn variable_at(bytes: &[u8]) -> Option<&[u8]>
    ensures value { option_copied result ≡ variable_at bytes.now }
    ensures opened { IfSome result (λ _. slice_index bytes.now 0 ≡ 123) }
    ensures closed { IfSome result (λ name. IsClosedAt bytes.now (length name.now + 2)) }
{
    if bytes.len() < 2 || bytes[0] != b'{' || bytes[1] != b'$' {
        return None;
    }
    name_in(&bytes[2..])
}

// The name at the head, where a `}` ends it.
fn name_in(bytes: &[u8]) -> Option<&[u8]>
    ensures value { option_copied result ≡ name_in bytes.now }
    ensures closed { IfSome result (λ name. IsClosedAt bytes.now (length name.now)) }
{
    let size = name_size(bytes);
    if size == 0 || size == bytes.len() || bytes[size] != b'}' {
        return None;
    }
    Some(&bytes[..size])
}

// How many letters, digits and underscores stand at the head.
fn name_size(bytes: &[u8]) -> usize
    ensures value { result ≡ length (before is_other bytes.now) }
    ensures inside { result ≤ length bytes.now }
{
    bytes
        .iter()
        .position(|b| !b.is_ascii_alphanumeric() && *b != b'_')
        .unwrap_or(bytes.len())
}

// The value of a variable, which is empty where the environment doesn't have it.
fn value_of<'a>(env: &'a [Pair], name: &[u8]) -> &'a str
    ensures { result.now ≡ value_of env.now name.now }
{
    for pair in env {
        if pair.name.as_str().as_bytes() == name {
            return pair.value.as_str();
        }
    }
    ""
}
