//! A few bytes that stand in the value itself.
ghost use Rattle.std.specs.Prelude.{◌≡◌, ◌↔◌, ◌+◌, ◌≤◌, [], ◌++◌, length, map, take, IsTrue};
ghost use Rattle.std.specs.Char.{to_ascii_lowercase};

use std::alloc::Global;
use std::marker::Model;

const MOST: usize = 38;

/// At most 38 bytes: with their length and the tag of a `Wire` they fill 40.
#[derive(Debug, Drop)]
pub(crate) struct Short {
    len: u8,
    bytes: [u8; MOST],
    alloc: Global,
}

impl Model for Short {
    ghost use Rattle.std.specs.Prelude.{ℕ, ◌≤◌, List, take};

    ghost Value = { List ℕ };

    ghost view = { λ s. take s.len s.bytes };

    ghost invariant = { λ s. s.len ≤ 38 };
}

impl Short {
    /// No bytes.
    #[inline]
    pub(crate) fn new(alloc: Global) -> Short
        ensures { result ≡ [] }
    {
        Short {
            len: 0,
            bytes: [0; MOST],
            alloc,
        }
    }

    /// What more bytes are in, where they don't fit.
    #[inline]
    pub(crate) fn allocator(&self) -> Global {
        self.alloc
    }

    /// How many bytes.
    #[inline]
    pub(crate) fn len(&self) -> usize
        ensures value { result ≡ length self.now }
        ensures most { result ≤ 38 }
    {
        self.len as usize
    }

    /// The bytes.
    #[inline]
    pub(crate) fn as_slice(&self) -> &[u8]
        ensures { result.now ≡ self.now }
    {
        &self.bytes[..self.len as usize]
    }

    /// Whether so many more fit.
    #[inline]
    pub(crate) fn has_room(&self, more: usize) -> bool
        ensures { IsTrue result ↔ (length self.now + more ≤ 38) }
    {
        more <= MOST - self.len as usize
    }

    /// Whether so many fit where there are none.
    #[inline]
    pub(crate) fn fits(bytes: usize) -> bool
        ensures { IsTrue result ↔ (bytes ≤ 38) }
    {
        bytes <= MOST
    }

    /// Adds bytes at the end.
    #[inline]
    pub(crate) fn push(&mut self, more: &[u8])
        requires { length self.old + length more.now ≤ 38 }
        ensures { self.new ≡ self.old ++ more.now }
    {
        let start = self.len as usize;
        put(&mut self.bytes, start, more);
        self.len = (start + more.len()) as u8;
    }

    /// Drops all bytes.
    #[inline]
    pub(crate) fn clear(&mut self)
        ensures { self.new ≡ [] }
    {
        self.len = 0;
    }

    /// The same bytes.
    #[inline]
    pub(crate) fn copy(&self) -> Short
        ensures { result ≡ self.now }
    {
        Short {
            len: self.len,
            bytes: self.bytes,
            alloc: self.alloc,
        }
    }

    /// Becomes the bytes of another.
    #[inline(always)]
    pub(crate) fn set_to(&mut self, other: &Short)
        ensures { self.new ≡ other.now }
    {
        self.bytes = other.bytes;
        self.len = other.len;
    }

    /// Makes every ASCII capital small.
    pub(crate) fn make_lower(&mut self)
        ensures { self.new ≡ map to_ascii_lowercase self.old }
    {
        self.bytes.as_mut_slice().make_ascii_lowercase();
    }
}

// Writes over bytes from a place on.
#[inline]
fn put(into: &mut [u8], at: usize, source: &[u8])
    requires { at + length source.now ≤ length into.old }
    ensures front { take (at + length source.now) into.new ≡ take at into.old ++ source.now }
    ensures len { length into.new ≡ length into.old }
{
    into[at..at + source.len()].copy_from_slice(source);
}
