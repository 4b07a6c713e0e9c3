ghost use Rattle.std.specs.Prelude.{◌≡◌, ℕ, List, [], ◌∷◌, ◌++◌, map, Some};
ghost use Rattle.std.specs.Prelude.{IfOk, IsTrue, OnOk};
ghost use Rattle.std.specs.Char.{to_ascii_lowercase};
ghost use Rattle.std.specs.List.{flat_map};
ghost use Rattle.std.specs.Str.{IsUtf8};
ghost use Rattle.dns_names.specs.Name.{lowered};
ghost use Rattle.dns_names.specs.NameText.{byte_text, is_special, label_text, name_text, name_of};

use crate::{Labels, Name};
use dns_lists::{NoMemory, Text, are_bytes};
use std::alloc::Global;

impl Name {
    /// The name in presentation format (RFC 1035, section 5.1): a dot behind each label, and the
    /// root a dot. What isn't printed as it is has a backslash in front, or stands as a backslash
    /// and three digits. Whatever the origin, the text reads as the name.
    pub fn text(&self, alloc: Global) -> Result<Text, NoMemory>
        ensures text { IfOk result (λ text. text ≡ name_text self.now) }
        ensures read { IfOk result (λ text.
            (origin : List (List ℕ)) → name_of text origin ≡ Some self.now) }
    {
        are_bytes(self.as_wire());
        let mut bytes = Vec::new(alloc);
        self.print(&mut bytes)?;
        Ok(text_of(bytes))
    }

    /// A text becomes the name in presentation format with every ASCII capital made small, in the
    /// room that is there.
    pub fn write_lower(&self, alloc: Global, text: &mut Text) -> Result<(), NoMemory>
        ensures ok { OnOk result (text.new ≡ name_text (lowered self.now)) }
    {
        are_bytes(self.as_wire());
        let mut bytes = text.take(alloc).into_bytes();
        bytes.clear();
        self.print_lower(&mut bytes)?;
        *text = text_of(bytes);
        Ok(())
    }

    // Adds the same to no bytes.
    #[inline]
    fn print_lower(&self, text: &mut Vec<u8>) -> Result<(), NoMemory>
        requires { text.old.items ≡ [] }
        ensures { OnOk result (text.new.items ≡ name_text (lowered self.now)) }
    {
        are_bytes(self.as_wire());
        if self.print(text)? {
            return Ok(());
        }
        text.make_ascii_lowercase();
        Ok(())
    }

    // Adds the name in presentation format, and tells whether it is seen to have no capital.
    fn print(&self, text: &mut Vec<u8>) -> Result<bool, NoMemory>
        ensures text { OnOk result (text.new.items ≡ text.old.items ++ name_text self.now) }
        ensures small { IfOk result
            (λ is_small. IsTrue is_small → lowered self.now ≡ self.now) }
    {
        let wire = self.as_wire();
        if wire.len() == 0 {
            text.push(b'.')?;
            return Ok(false);
        }
        let mut at = text.len();
        text.extend_from_slice(&wire[1..])?;
        text.push(b'.')?;
        // The text is there, with the length bytes of further labels in the place of dots.
        let mut is_small = true;
        let mut labels = self.labels();
        while let Some(label) = labels.next() {
            if !are_common(label) {
                if !is_plain(label) {
                    text.truncate(at);
                    put_label(text, label)?;
                    put_labels(text, labels)?;
                    return Ok(false);
                }
                is_small = false;
            }
            text[at + label.len()] = b'.';
            at += label.len() + 1;
        }
        Ok(is_small)
    }
}

// A text of bytes that are proved to be UTF-8, so that they aren't looked at again.
#[inline]
fn text_of(bytes: Vec<u8>) -> Text
    requires { IsUtf8 bytes.items }
    ensures { result ≡ bytes.items }
{
    Text::of(unsafe { String::from_utf8_unchecked(bytes) })
}

// Adds labels in presentation format.
#[cold]
#[inline(never)]
fn put_labels(text: &mut Vec<u8>, mut labels: Labels<'_>) -> Result<(), NoMemory>
    ensures { OnOk result (text.new.items ≡ text.old.items ++ flat_map label_text labels.entry) }
{
    while let Some(label) = labels.next() {
        put_label(text, label)?;
    }
    Ok(())
}

fn put_label(text: &mut Vec<u8>, label: &[u8]) -> Result<(), NoMemory>
    ensures { OnOk result (text.new.items ≡ text.old.items ++ label_text label.now) }
{
    if is_plain(label) {
        text.extend_from_slice(label)?;
    } else {
        put_bytes(text, label)?;
    }
    text.push(b'.')?;
    Ok(())
}

// Whether each byte of the label is printed as it is.
fn is_plain(label: &[u8]) -> bool
    ensures { IsTrue result → flat_map byte_text label.now ≡ label.now }
{
    for byte in label {
        if is_special(*byte) || !byte.is_ascii_graphic() {
            return false;
        }
    }
    true
}

// Whether each byte of the label is one of those of which most names are made.
#[inline]
fn are_common(label: &[u8]) -> bool
    ensures plain { IsTrue result → flat_map byte_text label.now ≡ label.now }
    ensures small { IsTrue result → map to_ascii_lowercase label.now ≡ label.now }
{
    for byte in label {
        if !is_common(*byte) {
            return false;
        }
    }
    true
}

// Whether a byte is one of those of which most names are made. They are printed as they are, and
// are no capitals.
#[inline]
fn is_common(byte: u8) -> bool
    ensures plain { IsTrue result → byte_text byte ≡ byte ∷ [] }
    ensures small { IsTrue result → to_ascii_lowercase byte ≡ byte }
{
    byte.is_ascii_lowercase() || byte.is_ascii_digit() || byte == b'-'
}

fn put_bytes(text: &mut Vec<u8>, label: &[u8]) -> Result<(), NoMemory>
    ensures { OnOk result (text.new.items ≡ text.old.items ++ flat_map byte_text label.now) }
{
    for byte in label {
        put_byte(text, *byte)?;
    }
    Ok(())
}

fn put_byte(text: &mut Vec<u8>, byte: u8) -> Result<(), NoMemory>
    ensures { OnOk result (text.new.items ≡ text.old.items ++ byte_text byte) }
{
    if is_special(byte) {
        text.extend_from_slice(&[b'\\', byte])?;
    } else if byte.is_ascii_graphic() {
        text.push(byte)?;
    } else {
        let digits = [
            b'\\',
            b'0' + byte / 100,
            b'0' + byte / 10 % 10,
            b'0' + byte % 10,
        ];
        text.extend_from_slice(&digits)?;
    }
    Ok(())
}

// Whether a zone file has a meaning of its own for the byte.
fn is_special(byte: u8) -> bool
    ensures { result ≡ is_special byte }
{
    matches!(byte, b'.' | b'\\' | b'"' | b'(' | b')' | b';' | b'@' | b'$')
}
