ghost use Rattle.std.specs.Prelude.{◌≡◌, ◌++◌, [], ◌∷◌, ℕ, ◌≤◌, length, drop};
ghost use Rattle.std.specs.Prelude.{IsTrue, IsFalse, IfSome, IfNone, IfOk, OnOk, OnErr, ◌↔◌};
ghost use Rattle.dns_data.specs.{lowered, spelled};
ghost use Rattle.name_table.specs.Hash.{hash_of};
ghost use Rattle.name_table.specs.Table.{Holds, IsEntryOf, IsNamed, IsNumberOf, IsMissing};
ghost use Rattle.name_table.specs.Table.{IsLongest, entry_of};

use crate::entry::Entry;
use crate::hash::{hash_of, place_of};
use dns_data::{Labels, Name, NoMemory, Seq, same_letters};
use std::alloc::Global;
use std::marker::Model;

// A name has at most 254 bytes in wire format, the zero byte aside.
const LENGTHS: usize = 256;

/// Names, no two of which are the same, ASCII case aside. Contracts see their list: the number of
/// a name is its place there.
#[derive(Debug, Drop)]
pub struct NameTable {
    names: Vec<Name>,
    // In each the entries of names whose hashes fall together.
    buckets: Vec<Seq<Entry>>,
    /// For each number of bytes in wire format, whether a name has so many.
    lengths: [bool; LENGTHS],
}

impl Model for NameTable {
    ghost use Rattle.std.specs.Prelude.{ℕ, List};
    ghost use Rattle.name_table.specs.Table.{AreMarked, IsTable};

    ghost Value = { List (List (List ℕ)) };

    ghost view = { λ t. t.names.items };

    ghost invariant = { λ t. IsTable t.names.items t.buckets.items
        × AreMarked t.names.items t.lengths };
}

/// A suffix that a table has: how many labels of the whole name stand above it, and its number.
#[derive(Clone, Copy, Debug, PartialEq, Eq)]
pub struct Longest {
    pub above: usize,
    pub number: usize,
}

impl NameTable {
    /// A table without names. It is fastest with at most so many, and takes more.
    pub fn new(alloc: Global, names: u32) -> Result<NameTable, NoMemory>
        ensures { IfOk result (λ t. t ≡ []) }
    {
        let count = names as usize + 1;
        let mut buckets = Vec::with_capacity(alloc, count)?;
        for made in 0..count {
            let _ = made;
            buckets.push(Seq::new(alloc))?;
        }
        Ok(NameTable {
            names: Vec::new(alloc),
            buckets,
            lengths: [false; LENGTHS],
        })
    }

    /// How many names.
    pub fn len(&self) -> usize
        ensures { result ≡ length self.now }
    {
        self.names.len()
    }

    /// Adds a name that isn't there, whose number is how many there were.
    pub fn push(&mut self, name: Name) -> Result<(), NoMemory>
        requires { IsMissing self.old name }
        ensures ok { OnOk result (self.new ≡ self.old ++ name ∷ []) }
        ensures err { OnErr result (self.new ≡ self.old) }
    {
        let wire = name.as_wire();
        let (hash, bytes) = (hash_of(wire), wire.len());
        let place = place_of(hash, self.buckets.len());
        let number = self.names.len();
        self.buckets[place].push(Entry { hash, number })?;
        self.names.push(name)?;
        self.lengths[bytes] = true;
        Ok(())
    }

    /// The number of a name, ASCII case aside. Where no name has its length, that takes no call.
    #[inline(always)]
    pub fn find(&self, key: &Labels<'_>) -> Option<usize>
        ensures found { IfSome result (λ i. IsNumberOf self.now key.now i) }
        ensures none { IfNone result (IsMissing self.now key.now) }
    {
        let wire = key.as_wire();
        if !self.lengths[wire.len()] {
            return None;
        }
        if self.names.len() == 1 {
            return only_among(&self.names, key);
        }
        self.find_hashed(key)
    }

    /// The longest suffix of a name that the table has, ASCII case aside.
    #[inline]
    pub fn find_longest(&self, name: &Name) -> Option<Longest>
        ensures found { IfSome result (λ found. IsLongest self.now name.now found) }
        ensures none { IfNone result
            ((k : ℕ) → k ≤ length name.now → IsMissing self.now (drop k name.now)) }
    {
        let _most = name.as_wire().len();
        let mut above = 0;
        let mut rest = name.labels();
        loop {
            if let Some(number) = self.find(&rest) {
                return Some(Longest { above, number });
            }
            let Some(_) = rest.next() else {
                return None;
            };
            above += 1;
        }
    }

    // The number of a name, by its hash.
    #[inline(never)]
    fn find_hashed(&self, key: &Labels<'_>) -> Option<usize>
        ensures found { IfSome result (λ i. IsNumberOf self.now key.now i) }
        ensures none { IfNone result (IsMissing self.now key.now) }
    {
        let hash = hash_of(key.as_wire());
        let place = place_of(hash, self.buckets.len());
        find_among(&self.names, self.buckets[place].as_slice(), key, hash)
    }
}

// The number of a name, where there is one name alone.
#[inline]
fn only_among(names: &[Name], key: &Labels<'_>) -> Option<usize>
    requires { length names.now ≡ 1 }
    ensures found { IfSome result (λ i. IsNumberOf names.now key.now i) }
    ensures none { IfNone result (IsMissing names.now key.now) }
{
    if is_named(names, 0, key) {
        return Some(0);
    }
    None
}

#[inline]
fn find_among(names: &[Name], entries: &[Entry], key: &Labels<'_>, hash: u32) -> Option<usize>
    ensures found { IfSome result (λ i. IsNamed names.now i key.now) }
    ensures none { IfNone result ((i : ℕ) → Holds entries.now (entry_of hash i)
        → IsNamed names.now i key.now → ⊥) }
{
    for entry in entries {
        if is_entry_of(names, entry, key, hash) {
            return Some(entry.number);
        }
    }
    None
}

#[inline]
fn is_entry_of(names: &[Name], entry: &Entry, key: &Labels<'_>, hash: u32) -> bool
    ensures { IsTrue result ↔ IsEntryOf names.now entry.now key.now hash }
{
    if entry.hash != hash {
        return false;
    }
    is_named(names, entry.number, key)
}

#[inline]
fn is_named(names: &[Name], number: usize, key: &Labels<'_>) -> bool
    ensures { IsTrue result ↔ IsNamed names.now number key.now }
{
    if names.len() <= number {
        return false;
    }
    same_letters(names[number].as_wire(), key.as_wire())
}
