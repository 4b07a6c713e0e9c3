ghost use Rattle.std.specs.Prelude.{◌≡◌, ◌≤◌, length, IfOk};
ghost use Rattle.std.specs.Char.{is_ascii_alphanumeric};
ghost use Rattle.std.specs.List.{list_all};
ghost use Rattle.dns_data.specs.declared.limit.TheConstants as limits;
ghost use Rattle.record_text.specs.Fields.{Answers};
ghost use Rattle.record_text.specs.Strings.{is_tag, string_of, tag_of};

use crate::RecordFault;
use dns_data::limit::STRING_BYTES;
use dns_data::{Bytes, byte_at};
use std::alloc::Global;

/// The character-string that a text spells.
#[tactic(auto, unfolding(crate::specs::Strings::string_of))]
pub(crate) fn read_string(alloc: Global, text: &[u8]) -> Result<Bytes, RecordFault>
    ensures value { Answers (string_of text.now) result }
    ensures short { IfOk result (λ bytes. length bytes ≤ limits.STRING_BYTES) }
{
    let mut bytes = Bytes::new(alloc);
    let mut rest = text;
    while let Some((byte, behind)) = rest.split_first() {
        let Some((value, size)) = byte_at(*byte, behind) else {
            return Err(RecordFault::Bad);
        };
        bytes.push(value)?;
        rest = &behind[size..];
    }
    if STRING_BYTES < bytes.len() {
        return Err(RecordFault::Bad);
    }
    Ok(bytes)
}

/// The tag of a CAA record that a text is.
#[tactic(auto, unfolding(crate::specs::Strings::tag_of))]
pub(crate) fn read_tag(alloc: Global, text: &[u8]) -> Result<Bytes, RecordFault>
    ensures value { Answers (tag_of text.now) result }
    ensures some { IfOk result (λ tag. 1 ≤ length tag) }
    ensures short { IfOk result (λ tag. length tag ≤ limits.STRING_BYTES) }
{
    if !is_tag(text) {
        return Err(RecordFault::Bad);
    }
    Ok(Bytes::from_slice(alloc, text)?)
}

fn is_tag(text: &[u8]) -> bool
    ensures { result ≡ is_tag text.now }
{
    let has_size = 0 < text.len() && text.len() < 16;
    has_size && are_alphanumeric(text)
}

fn are_alphanumeric(text: &[u8]) -> bool
    ensures { result ≡ list_all is_ascii_alphanumeric text.now }
{
    text.iter().all(|b| b.is_ascii_alphanumeric())
}
