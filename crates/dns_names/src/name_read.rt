ghost use Rattle.std.specs.Prelude.{◌≡◌, ◌<◌, ◌≤◌, ◌+◌, ◌↔◌, [], ◌∷◌, ◌++◌, true, false, length};
ghost use Rattle.std.specs.Prelude.{ℕ, List, IfSome, OnOk, OnErr, IsTrue, take};
ghost use Rattle.std.specs.Char.{is_ascii_digit};
ghost use Rattle.dns_names.specs.NameText.{ReadsName, Completes, Fits, byte_at, escaped, is_dot};
ghost use Rattle.dns_names.specs.NameText.{IsRun, SetsName, numbered};

use crate::Name;
use crate::limit::{LABEL_BYTES, NAME_BYTES};
use dns_lists::NoMemory;
use std::alloc::Global;

/// Why a text isn't read as a name.
#[derive(Clone, Copy, Debug, PartialEq, Eq)]
pub enum NameFault {
    /// It spells none.
    Bad,
    NoMemory,
}

impl From<NoMemory> for NameFault {
    ghost use Rattle.std.specs.Prelude.{◌≡◌};
    ghost use Rattle.dns_names.specs.declared.name_read.NameFault.TheVariants as fault;

    ghost from_gives = { λ _ e. e ≡ fault.NoMemory };

    fn from(_: NoMemory) -> NameFault {
        NameFault::NoMemory
    }
}

impl Name {
    /// The name that a text spells in presentation format (RFC 1035, section 5.1). A text that ends
    /// in a dot is absolute, and another one stands below the origin. A backslash and three digits
    /// are the byte of that number, and a backslash and another byte are that byte.
    pub fn read(alloc: Global, text: &[u8], origin: &Name) -> Result<Name, NameFault>
        ensures { ReadsName text.now origin.now result }
    {
        let mut name = Name::root(alloc);
        name.set_read(alloc, text, origin)?;
        Ok(name)
    }

    /// Becomes the name that a text spells, as `read` tells it, in the room that is there. Where
    /// the text spells none, it stays as it is.
    pub fn set_read(&mut self, alloc: Global, text: &[u8], origin: &Name) -> Result<(), NameFault>
        ensures value { SetsName text.now origin.now self.new result }
        ensures err { OnErr result (self.new ≡ self.old) }
    {
        if is_dot(text) {
            self.clear();
            return Ok(());
        }
        if NAME_BYTES <= text.len() {
            return self.set_to(read_slowly(alloc, text, origin));
        }
        // The text behind one byte: a label's length then takes the place of the dot in front.
        let mut wire = [0; NAME_BYTES];
        copy_behind(&mut wire, text);
        let mut at = 0;
        let mut rest = text;
        loop {
            let size = run_len(rest);
            if size == rest.len() {
                if size == 0 && 0 < at {
                    self.set_wire(&wire[..at])?;
                    return Ok(());
                }
                let name = Name::of_wire(alloc, &wire[..at])?;
                return self.set_to(completed(name, rest, origin));
            }
            if rest[size] != b'.' || size == 0 || LABEL_BYTES < size {
                return self.set_to(read_slowly(alloc, text, origin));
            }
            wire[at] = size as u8;
            at += size + 1;
            rest = &rest[size + 1..];
        }
    }

    // Becomes the name that was read, where there is one.
    fn set_to(&mut self, read: Result<Name, NameFault>) -> Result<(), NameFault>
        ensures value { (text : List ℕ) → (origin : List (List ℕ))
            → ReadsName text origin read → SetsName text origin self.new result }
        ensures err { OnErr result (self.new ≡ self.old) }
    {
        match read {
            Ok(name) => {
                *self = name;
                Ok(())
            }
            Err(fault) => Err(fault),
        }
    }
}

// Writes bytes behind the first one.
#[inline]
fn copy_behind(into: &mut [u8], text: &[u8])
    requires { length text.now < length into.old }
    ensures { take (length text.now + 1) into.new ≡ take 1 into.old ++ text.now }
{
    into[1..text.len() + 1].copy_from_slice(text);
}

// The name that any text spells, read byte by byte.
#[cold]
#[inline(never)]
fn read_slowly(alloc: Global, text: &[u8], origin: &Name) -> Result<Name, NameFault>
    requires { is_dot text.now ≡ false }
    ensures { ReadsName text.now origin.now result }
{
    let mut name = Name::root(alloc);
    let mut label = Vec::new(alloc);
    let mut rest = text;
    while let Some((byte, behind)) = rest.split_first() {
        if *byte == b'.' {
            if !has_room(&name, &label) {
                return Err(NameFault::Bad);
            }
            name.push(&label)?;
            label.clear();
            rest = behind;
        } else {
            let Some((value, size)) = byte_at(*byte, behind) else {
                return Err(NameFault::Bad);
            };
            push_byte(&mut label, value)?;
            rest = &behind[size..];
        }
    }
    completed(name, &label, origin)
}

// How many bytes stand before the first dot or backslash.
fn run_len(text: &[u8]) -> usize
    ensures inside { result ≤ length text.now }
    ensures run { IsRun result text.now }
{
    for index in 0..text.len() {
        // Most bytes are small letters, which are above both.
        let byte = text[index];
        if byte <= b'\\' && (byte == b'.' || byte == b'\\') {
            return index;
        }
    }
    text.len()
}

// The name whose last label was read. That is empty where a dot ended the text.
fn completed(mut name: Name, label: &[u8], origin: &Name) -> Result<Name, NameFault>
    ensures { Completes name label.now origin.now result }
{
    if label.len() == 0 {
        if 1 < name.wire_len() {
            return Ok(name);
        }
        return Err(NameFault::Bad);
    }
    if !has_room(&name, label) {
        return Err(NameFault::Bad);
    }
    name.push(label)?;
    if NAME_BYTES + 1 < name.wire_len() + origin.wire_len() {
        return Err(NameFault::Bad);
    }
    name.append(origin.as_wire())?;
    Ok(name)
}

fn push_byte(label: &mut Vec<u8>, byte: u8) -> Result<(), NoMemory>
    ensures { OnOk result (label.new.items ≡ label.old.items ++ byte ∷ []) }
{
    label.push(byte)?;
    Ok(())
}

fn has_room(name: &Name, label: &[u8]) -> bool
    ensures { IsTrue result ↔ Fits name.now label.now }
{
    0 < label.len() && label.len() <= LABEL_BYTES && name.wire_len() + label.len() < NAME_BYTES
}

/// The byte at the head of a text, which may be escaped (RFC 1035, section 5.1), and how many bytes
/// behind the first spell it.
pub fn byte_at(first: u8, behind: &[u8]) -> Option<(u8, usize)>
    ensures value { result ≡ byte_at first behind.now }
    ensures inside { IfSome result (λ found. found.1 ≤ length behind.now) }
{
    if first == b'\\' {
        return escaped(behind);
    }
    Some((first, 0))
}

// What a backslash in front of this text means.
fn escaped(text: &[u8]) -> Option<(u8, usize)>
    ensures value { result ≡ escaped text.now }
    ensures inside { IfSome result (λ found. found.1 ≤ length text.now) }
{
    let (first, behind) = text.split_first()?;
    if first.is_ascii_digit() {
        return numbered(*first, behind);
    }
    Some((*first, 1))
}

// The byte that three digits name.
fn numbered(first: u8, behind: &[u8]) -> Option<(u8, usize)>
    requires { is_ascii_digit first ≡ true }
    ensures value { result ≡ numbered first behind.now }
    ensures inside { IfSome result (λ found. found.1 ≤ length behind.now + 1) }
{
    if behind.len() < 2 || !behind[0].is_ascii_digit() || !behind[1].is_ascii_digit() {
        return None;
    }
    let number = 100 * u16::from(first - b'0')
        + 10 * u16::from(behind[0] - b'0')
        + u16::from(behind[1] - b'0');
    if 255 < number {
        return None;
    }
    Some((number as u8, 3))
}

// Whether the text is a dot.
fn is_dot(text: &[u8]) -> bool
    ensures { result ≡ is_dot text.now }
{
    text.len() == 1 && text[0] == b'.'
}
