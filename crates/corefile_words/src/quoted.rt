ghost use Rattle.std.specs.Prelude.{◌≡◌, ◌<◌, length, slice_index, IfOk, IfSome};
ghost use Rattle.std.specs.Str.{IsUtf8};
ghost use Rattle.corefile_words.specs.Lines.{begins_with, without_before};
ghost use Rattle.corefile_words.specs.Words.{closing_quote};

use dns_data::NoMemory;
use std::alloc::Global;

/// How many bytes stand before the next quote that has no backslash in front.
pub(crate) fn quoted_size(bytes: &[u8]) -> Option<usize>
    ensures value { result ≡ closing_quote 34 bytes.now }
    ensures inside { IfSome result (λ size. size < length bytes.now) }
    ensures quote { IfSome result (λ size. slice_index bytes.now size ≡ 34) }
{
    let mut before = b'"';
    for (at, byte) in bytes.iter().enumerate() {
        if *byte == b'"' && before != b'\\' {
            return Some(at);
        }
        before = *byte;
    }
    None
}

/// The text within quotes with `"` for each `\"`.
pub(crate) fn unescaped(alloc: Global, bytes: &[u8]) -> Result<Vec<u8>, NoMemory>
    requires { IsUtf8 bytes.now }
    ensures text { IfOk result (λ text. text.items ≡ without_before 92 34 bytes.now) }
    ensures utf8 { IfOk result (λ text. IsUtf8 text.items) }
{
    let mut text = Vec::new(alloc);
    let mut rest = bytes;
    while let Some((byte, behind)) = rest.split_first() {
        if *byte != b'\\' || !begins_quote(behind) {
            text.push(*byte)?;
        }
        rest = behind;
    }
    Ok(text)
}

fn begins_quote(bytes: &[u8]) -> bool
    ensures { result ≡ begins_with 34 bytes.now }
{
    0 < bytes.len() && bytes[0] == b'"'
}
