ghost use Rattle.std.specs.Prelude.{◌≡◌, ◌≤◌, ◌+◌, [], true, length, map, IfOk, List, ℕ};
ghost use Rattle.dns_data.specs.Record.{Compressed, Uncompressed, U8, U16, U32, U128, CharString};
ghost use Rattle.dns_data.specs.Record.{NonEmpty, CharStrings, Remainder, fields_of, kind_of};
ghost use Rattle.dns_data.specs.Record.{is_known_type};
ghost use Rattle.dns_wire.specs.Fields.{shape, shapes_of};
ghost use Rattle.dns_wire.specs.Known.{AreKnown};
ghost use Rattle.dns_wire.specs.Cursor.{HasRead, Passes, TakesString, Takes, ReadsData, back_onto};

use crate::WireFault;
use crate::character_string::{read_strings, string_at};
use crate::known::KnownNames;
use crate::name::read_name;
use crate::number::{u16_at, u32_at, u128_at};
use dns_data::{Bytes, Name, NoMemory, Rdata, Seq, Strings};
use std::alloc::Global;
use std::marker::Model;

/// Reads the data of a record field by field. Whether all fields stood there is told once, by
/// `finish`.
#[derive(Drop)]
pub struct Cursor<'a> {
    alloc: Global,
    bytes: &'a [u8],
    at: usize,
    limit: usize,
    is_sound: bool,
}

impl<'a> Model for Cursor<'a> {
    ghost use Rattle.std.specs.Prelude.{◌≤◌, length};
    ghost use Rattle.dns_wire.specs.Cursor.{CursorData};

    ghost Value = { CursorData };

    ghost view = { λ c. record {
      bytes = c.bytes.now;
      at = c.at;
      limit = c.limit;
      is_sound = c.is_sound;
    } };

    ghost invariant = { λ c. (c.at ≤ c.limit) × (c.limit ≤ length c.bytes.now) };
}

impl<'a> Cursor<'a> {
    /// At the data that stands at an offset and ends before a limit.
    #[inline]
    pub fn new(alloc: Global, bytes: &'a [u8], at: usize, limit: usize) -> Cursor<'a>
        requires order { at ≤ limit }
        requires inside { limit ≤ length bytes.now }
        requires few { limit ≤ at + 65535 }
        ensures { HasRead bytes.now at limit [] result }
    {
        Cursor {
            alloc,
            bytes,
            at,
            limit,
            is_sound: true,
        }
    }

    // Passes so many bytes where they are left, and gives the offset of the first.
    #[inline]
    fn pass(&mut self, count: usize) -> Option<usize>
        ensures { Passes self.old self.new count result }
    {
        if !self.is_sound {
            return None;
        }
        if self.limit - self.at < count {
            self.is_sound = false;
            return None;
        }
        let at = self.at;
        self.at = at + count;
        Some(at)
    }

    pub fn u8(&mut self) -> u8
        ensures { Takes self.old self.new (U8 result) }
    {
        let Some(at) = self.pass(1) else {
            return 0;
        };
        self.bytes[at]
    }

    pub fn u16(&mut self) -> u16
        ensures { Takes self.old self.new (U16 result) }
    {
        let Some(at) = self.pass(2) else {
            return 0;
        };
        u16_at(self.bytes, at)
    }

    #[inline]
    pub fn u32(&mut self) -> u32
        ensures { Takes self.old self.new (U32 result) }
    {
        let Some(at) = self.pass(4) else {
            return 0;
        };
        u32_at(self.bytes, at)
    }

    #[inline]
    pub fn u128(&mut self) -> u128
        ensures { Takes self.old self.new (U128 result) }
    {
        let Some(at) = self.pass(16) else {
            return 0;
        };
        u128_at(self.bytes, at)
    }

    /// A name, read through its pointers.
    pub fn name(&mut self, known: &mut KnownNames) -> Result<Name, NoMemory>
        requires known { AreKnown self.old.bytes known.old }
        ensures compressed { IfOk result (λ name. Takes self.old self.new (Compressed name)) }
        ensures uncompressed { IfOk result (λ name. Takes self.old self.new (Uncompressed name)) }
        ensures known { AreKnown self.old.bytes known.new }
    {
        if !self.is_sound {
            return Ok(Name::root(self.alloc));
        }
        match read_name(self.alloc, self.bytes, known, self.at) {
            Ok((name, behind)) => {
                if self.limit < behind {
                    self.is_sound = false;
                    return Ok(name);
                }
                self.at = behind;
                Ok(name)
            }
            Err(WireFault::Bad) => {
                self.is_sound = false;
                Ok(Name::root(self.alloc))
            }
            Err(WireFault::NoMemory) => Err(NoMemory),
        }
    }

    // Passes a character-string where one stands.
    fn pass_string(&mut self) -> Option<&'a [u8]>
        ensures { TakesString self.old self.new result }
    {
        if !self.is_sound {
            return None;
        }
        let found = string_at(self.bytes, self.at, self.limit);
        match found {
            Some(text) => self.at = self.at + 1 + text.len(),
            None => self.is_sound = false,
        }
        found
    }

    /// A character-string (RFC 1035, section 3.3).
    pub fn string(&mut self) -> Result<Bytes, NoMemory>
        ensures { IfOk result (λ text. Takes self.old self.new (CharString text)) }
    {
        let Some(text) = self.pass_string() else {
            return Ok(Bytes::new(self.alloc));
        };
        Bytes::from_slice(self.alloc, text)
    }

    /// A character-string of at least one byte.
    pub fn non_empty(&mut self) -> Result<Bytes, NoMemory>
        ensures { IfOk result (λ text. Takes self.old self.new (NonEmpty text)) }
    {
        let Some(text) = self.pass_string() else {
            return Ok(Bytes::new(self.alloc));
        };
        if text.len() == 0 {
            self.is_sound = false;
            return Ok(Bytes::new(self.alloc));
        }
        Bytes::from_slice(self.alloc, text)
    }

    /// Character-strings up to the end.
    pub fn strings(&mut self) -> Result<Strings, NoMemory>
        ensures { IfOk result (λ texts. Takes self.old self.new (CharStrings texts)) }
    {
        if !self.is_sound {
            return Ok(Seq::new(self.alloc));
        }
        match read_strings(self.alloc, self.bytes, self.at, self.limit) {
            Ok(texts) => {
                self.at = self.limit;
                Ok(texts)
            }
            Err(WireFault::Bad) => {
                self.is_sound = false;
                Ok(Seq::new(self.alloc))
            }
            Err(WireFault::NoMemory) => Err(NoMemory),
        }
    }

    /// The bytes up to the end.
    pub fn remainder(&mut self) -> Result<Bytes, NoMemory>
        ensures { IfOk result (λ text. Takes self.old self.new (Remainder text)) }
    {
        let text = Bytes::from_slice(self.alloc, &self.bytes[self.at..self.limit])?;
        self.at = self.limit;
        Ok(text)
    }

    /// The data whose fields were read, where all stood there and nothing is left.
    #[inline]
    pub fn finish(&self, kind: u16, rdata: Rdata) -> Result<Rdata, WireFault>
        requires kind_is { kind_of rdata ≡ kind }
        requires known { is_known_type kind ≡ true }
        requires shapes { map shape (fields_of rdata) ≡ shapes_of (kind_of rdata) }
        ensures { (bytes : List ℕ) (start limit : ℕ)
            → HasRead bytes start limit (back_onto (fields_of rdata) []) self.now
            → ReadsData bytes kind start limit result }
    {
        if !self.is_sound {
            return Err(WireFault::Bad);
        }
        if self.at != self.limit {
            return Err(WireFault::Bad);
        }
        Ok(rdata)
    }
}
