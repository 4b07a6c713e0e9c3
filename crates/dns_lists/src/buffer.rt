//! Bytes at the front of memory that is filled farther.
ghost use Rattle.std.specs.Prelude.{◌≡◌, ◌≤◌, [], ◌++◌, length, take, vec_len, OnOk, OnErr, IfOk};

use crate::{Copies, NoMemory};
use std::alloc::Global;
use std::marker::Model;

/// The bytes of a message, with room behind them that holds bytes already: what comes next is
/// written in place, and nothing is cleared for it. Contracts see the message's bytes alone.
#[derive(Debug, Drop)]
pub struct Buffer {
    // The message's bytes, and behind them whatever stood there before.
    items: Vec<u8>,
    count: usize,
}

impl Model for Buffer {
    ghost use Rattle.std.specs.Prelude.{ℕ, ◌≤◌, List, take, vec_len};

    ghost Value = { List ℕ };

    ghost view = { λ b. take b.count b.items.items };

    ghost invariant = { λ b. b.count ≤ vec_len b.items };
}

impl Buffer {
    /// No bytes, and no room.
    #[inline]
    pub fn new(alloc: Global) -> Buffer
        ensures { result ≡ [] }
    {
        Buffer {
            items: Vec::new(alloc),
            count: 0,
        }
    }

    /// The first so many bytes of a `Vec`, which is moved and not copied. The others are room.
    #[inline]
    pub fn front(items: Vec<u8>, count: usize) -> Buffer
        requires { count ≤ vec_len items }
        ensures { result ≡ take count items.items }
    {
        Buffer { items, count }
    }

    /// A copy of bytes, without room.
    pub fn from_slice(alloc: Global, bytes: &[u8]) -> Result<Buffer, NoMemory>
        ensures { IfOk result (λ b. b ≡ bytes.now) }
    {
        Ok(Buffer {
            items: Vec::from_slice(alloc, bytes)?,
            count: bytes.len(),
        })
    }

    /// The bytes, and behind them the room, as a `Vec` which is moved and not copied.
    #[inline]
    pub fn into_room(self) -> Vec<u8>
        ensures { take (length self) result.items ≡ self }
    {
        let Buffer { items, count: _ } = self;
        items
    }

    /// How many bytes.
    #[inline]
    pub fn len(&self) -> usize
        ensures { result ≡ length self.now }
    {
        self.count
    }

    /// The bytes.
    #[inline]
    pub fn as_slice(&self) -> &[u8]
        ensures { result.now ≡ self.now }
    {
        &self.items[..self.count]
    }

    /// Drops all bytes, and keeps them as room.
    #[inline]
    pub fn clear(&mut self)
        ensures { self.new ≡ [] }
    {
        self.count = 0;
    }

    /// Adds bytes at the end, in the room where they fit.
    #[inline]
    pub fn append(&mut self, bytes: &[u8]) -> Result<(), NoMemory>
        ensures ok { OnOk result (self.new ≡ self.old ++ bytes.now) }
        ensures err { OnErr result (self.new ≡ self.old) }
    {
        if self.items.len() - self.count < bytes.len() {
            return self.append_far(bytes);
        }
        let end = self.count + bytes.len();
        self.items[self.count..end].copy_from_slice(bytes);
        self.count = end;
        Ok(())
    }

    // Adds bytes for which there is no room.
    #[cold]
    #[inline(never)]
    fn append_far(&mut self, bytes: &[u8]) -> Result<(), NoMemory>
        ensures ok { OnOk result (self.new ≡ self.old ++ bytes.now) }
        ensures err { OnErr result (self.new ≡ self.old) }
    {
        self.items.truncate(self.count);
        self.items.extend_from_slice(bytes)?;
        self.count = self.items.len();
        Ok(())
    }
}

impl Copies for Buffer {
    fn copy(&self, alloc: Global) -> Result<Buffer, NoMemory> {
        Buffer::from_slice(alloc, self.as_slice())
    }
}
