ghost use Rattle.std.specs.Prelude.{◌≡◌, ◌<◌, ◌≤◌, [], length, take, map, Some};
ghost use Rattle.std.specs.Prelude.{IsTrue, OnOk, IfSome};
ghost use Rattle.std.specs.List.{AllByRecursion};
ghost use Rattle.dns_names.specs.Name.{IsWire, labels_of};
ghost use Rattle.dns_write.specs.Written.{earliest};
ghost use Rattle.dns_write.specs.Offsets.{offset_of, IsOffset, suffixes_at, with_offset};

use dns_data::limit::{HEADER_BYTES, POINTER_END};
use dns_data::{Name, NoMemory, are_equal};
use std::alloc::Global;
use std::marker::Model;

// As many offsets as stand in the value itself. Most replies have fewer.
const NEAR: usize = 3;

/// Where suffixes of names were written out, the earliest first: each is the wire format of a
/// suffix without the zero byte, and an offset below 16,384. Those of the name right behind the
/// header follow from that name, and nothing is kept of each. The first three of the others take no
/// memory.
#[derive(Drop)]
pub struct Offsets<'a> {
    // The name right behind the header, and how many of its suffixes count.
    first: &'a [u8],
    kept: usize,
    near: [(&'a [u8], usize); NEAR],
    count: usize,
    far: Vec<(&'a [u8], usize)>,
}

impl<'a> Model for Offsets<'a> {
    ghost use Rattle.std.specs.Prelude.{List, ◌++◌, take, map};
    ghost use Rattle.dns_names.specs.Name.{labels_of};
    ghost use Rattle.dns_write.specs.Written.{OffsetData};
    ghost use Rattle.dns_write.specs.Offsets.{offset_of, suffixes_at, AreStored};

    ghost Value = { List OffsetData };

    ghost view = { λ p. take p.kept (suffixes_at 12 (labels_of p.first.now))
        ++ map offset_of (take p.count p.near ++ p.far.items) };

    ghost invariant = { λ p. AreStored p.first.now p.kept p.count p.near p.far.items };
}

impl<'a> Offsets<'a> {
    #[inline]
    pub fn new(alloc: Global) -> Offsets<'a>
        ensures { result ≡ [] }
    {
        Offsets {
            first: &[],
            kept: 0,
            near: [(&[], 0); NEAR],
            count: 0,
            far: Vec::new(alloc),
        }
    }

    #[inline]
    pub fn len(&self) -> usize
        ensures { result ≡ length self.now }
    {
        self.kept + self.count + self.far.len()
    }

    /// Adds all suffixes of a name that is written out right behind the header.
    #[inline]
    pub fn set_first(&mut self, name: &'a Name)
        requires { self.old ≡ [] }
        ensures { self.new ≡ suffixes_at 12 name.now }
    {
        self.first = name.as_wire();
        self.kept = name.label_count();
    }

    /// Adds a suffix at an offset, where a pointer can name that offset.
    #[inline(always)]
    pub fn push(&mut self, suffix: &'a [u8], at: usize) -> Result<(), NoMemory>
        requires { IsWire suffix.now }
        ensures { OnOk result (self.new ≡ with_offset self.old (labels_of suffix.now) at) }
    {
        if POINTER_END <= at {
            return Ok(());
        }
        if self.count < NEAR {
            self.near[self.count] = (suffix, at);
            self.count += 1;
            return Ok(());
        }
        self.far.push((suffix, at))?;
        Ok(())
    }

    /// Drops all but the first so many.
    #[inline]
    pub fn truncate(&mut self, count: usize)
        ensures { self.new ≡ take count self.old }
    {
        self.kept = self.kept.min(count);
        let behind = count - self.kept;
        let near = self.count;
        if behind <= near {
            self.count = behind;
            self.far.clear();
        } else {
            self.far.truncate(behind - near);
        }
    }

    /// Whether a suffix is the name right behind the header, letter for letter. That is the
    /// question's, as a rule.
    #[inline]
    pub fn is_first(&self, suffix: &[u8]) -> bool
        requires { IsWire suffix.now }
        ensures offset { IsTrue result → earliest self.now (labels_of suffix.now) ≡ Some 12 }
        ensures some { IsTrue result → 0 < length suffix.now }
    {
        if self.kept == 0 {
            return false;
        }
        are_equal(self.first, suffix)
    }

    /// The earliest offset of a suffix, letter for letter.
    #[inline]
    pub fn find(&self, suffix: &[u8]) -> Option<usize>
        requires { IsWire suffix.now }
        ensures value { result ≡ earliest self.now (labels_of suffix.now) }
        ensures small { IfSome result (λ at. at < POINTER_END) }
    {
        if let Some(at) = find_in_first(self.first, self.kept, suffix) {
            return Some(at);
        }
        if let Some(at) = find_among(&self.near[..self.count], suffix) {
            return Some(at);
        }
        if self.count < NEAR {
            return None;
        }
        find_far(&self.far, suffix)
    }
}

// The offset of a suffix among the first so many of the name right behind the header. Each but the
// one that is as long is passed over by its length.
#[inline]
fn find_in_first(first: &[u8], kept: usize, suffix: &[u8]) -> Option<usize>
    requires first { IsWire first.now }
    requires kept { kept ≤ length (labels_of first.now) }
    requires wire { IsWire suffix.now }
    ensures value { result
        ≡ earliest (take kept (suffixes_at 12 (labels_of first.now))) (labels_of suffix.now) }
    ensures small { IfSome result (λ at. at < POINTER_END) }
{
    let mut rest = first;
    let mut left = kept;
    while suffix.len() < rest.len() {
        if left == 0 {
            return None;
        }
        rest = &rest[rest[0] as usize + 1..];
        left -= 1;
    }
    if left == 0 {
        return None;
    }
    if !are_equal(rest, suffix) {
        return None;
    }
    Some(HEADER_BYTES + (first.len() - rest.len()))
}

// The same as `find_among`. Stays a call, since most replies have no such offsets.
#[cold]
#[inline(never)]
fn find_far(offsets: &[(&[u8], usize)], suffix: &[u8]) -> Option<usize>
    requires wire { IsWire suffix.now }
    requires offsets { AllByRecursion IsOffset offsets.now }
    ensures value { result ≡ earliest (map offset_of offsets.now) (labels_of suffix.now) }
    ensures small { IfSome result (λ at. at < POINTER_END) }
{
    find_among(offsets, suffix)
}

#[inline]
fn find_among(offsets: &[(&[u8], usize)], suffix: &[u8]) -> Option<usize>
    requires wire { IsWire suffix.now }
    requires offsets { AllByRecursion IsOffset offsets.now }
    ensures value { result ≡ earliest (map offset_of offsets.now) (labels_of suffix.now) }
    ensures small { IfSome result (λ at. at < POINTER_END) }
{
    for offset in offsets {
        if are_equal(offset.0, suffix) {
            return Some(offset.1);
        }
    }
    None
}
