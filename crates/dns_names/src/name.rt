ghost use Rattle.std.specs.Prelude.{◌≡◌, ℕ, ◌+◌, ◌<◌, ◌≤◌, List, [], ◌∷◌, ◌++◌, length, slice_get};
ghost use Rattle.std.specs.Prelude.{slice_index, take, OnOk, OnErr, IfOk, IsTrue, IsFalse, ◌↔◌};
ghost use Rattle.std.specs.Prelude.{drop};
ghost use Rattle.dns_names.specs.Name.{IsLabel, IsName, IsWire, IsWithin, wire_length, spelled};
ghost use Rattle.dns_names.specs.Name.{is_same, is_within, labels_of, lowered, same_labels};
ghost use Rattle.dns_names.specs.declared.limit.TheConstants as limits;

use crate::ascii::same_letters;
use dns_lists::{Copies, NoMemory, Wire};
use std::alloc::Global;
use std::marker::Model;

/// A domain name (RFC 1035, section 3.1): labels of 1 to 63 bytes, at most 255 bytes in wire
/// format, with the letters that it came with. Contracts see the list of its labels. At most 38
/// bytes, the zero byte left out, are kept in the value itself, and more in an allocation, which
/// stays when the name gets shorter.
#[derive(Debug, Drop)]
pub struct Name {
    // Each label behind its length byte, without the final zero byte.
    wire: Wire,
}

impl Model for Name {
    ghost use Rattle.std.specs.Prelude.{ℕ, List};
    ghost use Rattle.dns_names.specs.Name.{IsWire, labels_of};

    ghost Value = { List (List ℕ) };

    ghost view = { λ n. labels_of n.wire };

    ghost invariant = { λ n. IsWire n.wire };
}

impl Name {
    /// The name without labels, which takes no memory.
    pub fn root(alloc: Global) -> Name
        ensures { result ≡ [] }
    {
        Name {
            wire: Wire::new(alloc),
        }
    }

    /// The name without labels, with room for so many bytes in wire format.
    pub fn with_capacity(alloc: Global, bytes: usize) -> Result<Name, NoMemory>
        ensures { IfOk result (λ n. n ≡ []) }
    {
        Ok(Name {
            wire: Wire::with_capacity(alloc, bytes)?,
        })
    }

    /// The name that bytes spell in wire format, without the final zero byte.
    pub fn of_wire(alloc: Global, wire: &[u8]) -> Result<Name, NoMemory>
        requires { IsWire wire.now }
        ensures { IfOk result (λ n. n ≡ labels_of wire.now) }
    {
        Ok(Name {
            wire: Wire::from_slice(alloc, wire)?,
        })
    }

    /// How many bytes it takes in wire format, the final zero byte included.
    pub fn wire_len(&self) -> usize
        ensures value { result ≡ wire_length self.now }
        ensures proper { IsName self.now }
    {
        self.wire.len() + 1
    }

    /// The wire format without the final zero byte.
    pub fn as_wire(&self) -> &[u8]
        ensures value { result.now ≡ spelled self.now }
        ensures proper { IsName self.now }
    {
        self.wire.as_slice()
    }

    /// Adds a label at the end, next to the root.
    pub fn push(&mut self, label: &[u8]) -> Result<(), NoMemory>
        requires label { IsLabel label.now }
        requires room { wire_length self.old + length label.now + 1 ≤ limits.NAME_BYTES }
        ensures ok { OnOk result (self.new ≡ self.old ++ label.now ∷ []) }
        ensures err { OnErr result (self.new ≡ self.old) }
    {
        self.wire.push_label(label)?;
        Ok(())
    }

    /// The name with a label before it.
    pub fn below(&self, alloc: Global, label: &[u8]) -> Result<Name, NoMemory>
        requires label { IsLabel label.now }
        requires room { wire_length self.now + length label.now + 1 ≤ limits.NAME_BYTES }
        ensures { IfOk result (λ n. n ≡ label.now ∷ self.now) }
    {
        Ok(Name {
            wire: Wire::with_label(alloc, label, self.wire.as_slice())?,
        })
    }

    /// The name with every ASCII capital made small.
    pub fn lower(&self, alloc: Global) -> Result<Name, NoMemory>
        ensures { IfOk result (λ n. n ≡ lowered self.now) }
    {
        let mut wire = self.wire.copy(alloc)?;
        wire.make_lower();
        Ok(Name { wire })
    }

    /// Makes every ASCII capital small.
    pub fn make_lower(&mut self)
        ensures { self.new ≡ lowered self.old }
    {
        self.wire.make_lower();
    }

    /// Becomes the name that bytes spell, in the room that is there.
    pub fn set_wire(&mut self, wire: &[u8]) -> Result<(), NoMemory>
        requires { IsWire wire.now }
        ensures ok { OnOk result (self.new ≡ labels_of wire.now) }
        ensures err { OnErr result (self.new ≡ self.old) }
    {
        self.wire.set(wire)?;
        Ok(())
    }

    /// Drops all labels, and keeps the room.
    pub fn clear(&mut self)
        ensures { self.new ≡ [] }
    {
        self.wire.clear();
    }

    /// Adds labels in wire format at the end, next to the root, by one copy.
    pub fn append(&mut self, wire: &[u8]) -> Result<(), NoMemory>
        requires labels { IsWire wire.now }
        requires room { wire_length self.old + length wire.now ≤ limits.NAME_BYTES }
        ensures ok { OnOk result (self.new ≡ self.old ++ labels_of wire.now) }
        ensures err { OnErr result (self.new ≡ self.old) }
    {
        self.wire.extend(wire)?;
        Ok(())
    }

    /// Becomes another name, in the room that is there.
    #[inline(always)]
    pub fn set(&mut self, other: &Name) -> Result<(), NoMemory>
        ensures ok { OnOk result (self.new ≡ other.now) }
        ensures err { OnErr result (self.new ≡ self.old) }
    {
        if self.set_near(other) {
            return Ok(());
        }
        self.set_far(other)
    }

    /// Becomes a name with a label before it, in the room that is there.
    pub fn set_below(&mut self, label: &[u8], other: &Name) -> Result<(), NoMemory>
        requires label { IsLabel label.now }
        requires room { wire_length other.now + length label.now + 1 ≤ limits.NAME_BYTES }
        ensures ok { OnOk result (self.new ≡ label.now ∷ other.now) }
        ensures err { OnErr result (self.new ≡ self.old) }
    {
        self.wire.set_label(label, other.wire.as_slice())?;
        Ok(())
    }

    /// Becomes another name, where neither has an allocation. Else nothing is done.
    #[inline(always)]
    pub fn set_near(&mut self, other: &Name) -> bool
        ensures done { IsTrue result → self.new ≡ other.now }
        ensures not { IsFalse result → self.new ≡ self.old }
    {
        self.wire.set_near(&other.wire)
    }

    /// Two become two other names, where none has an allocation. Else nothing is done.
    #[inline(always)]
    pub fn set_two_near(first: &mut Name, second: &mut Name, source: &Name, other: &Name) -> bool
        ensures done { IsTrue result → (first.new ≡ source.now) × (second.new ≡ other.now) }
        ensures not { IsFalse result → (first.new ≡ first.old) × (second.new ≡ second.old) }
    {
        Wire::set_two_near(&mut first.wire, &mut second.wire, &source.wire, &other.wire)
    }

    // Becomes another name, where one of them has an allocation.
    #[cold]
    #[inline(never)]
    fn set_far(&mut self, other: &Name) -> Result<(), NoMemory>
        ensures ok { OnOk result (self.new ≡ other.now) }
        ensures err { OnErr result (self.new ≡ self.old) }
    {
        self.set_wire(other.wire.as_slice())
    }

    /// Whether the names are equal byte for byte.
    pub fn equals(&self, other: &Name) -> bool
        ensures test { result ≡ same_labels self.now other.now }
        ensures same { IsTrue result ↔ (self.now ≡ other.now) }
    {
        self.wire.as_slice() == other.wire.as_slice()
    }

    /// Whether the names are equal, ASCII case aside (RFC 4343).
    pub fn same(&self, other: &Name) -> bool
        ensures test { result ≡ is_same self.now other.now }
        ensures same { IsTrue result ↔ (lowered self.now ≡ lowered other.now) }
    {
        same_letters(self.wire.as_slice(), other.wire.as_slice())
    }

    /// Whether the zone is a suffix of the name on whole labels, ASCII case aside.
    pub fn is_within(&self, zone: &Name) -> bool
        ensures test { result ≡ is_within self.now zone.now }
        ensures within { IsTrue result ↔ IsWithin self.now zone.now }
    {
        let mut rest = self.wire.as_slice();
        while zone.wire.len() < rest.len() {
            rest = behind_first(rest);
        }
        same_letters(rest, zone.wire.as_slice())
    }

    /// How many labels it has. This is a walk.
    pub fn label_count(&self) -> usize
        ensures { result ≡ length self.now }
    {
        let mut rest = self.wire.as_slice();
        let mut count = 0;
        while 0 < rest.len() {
            rest = behind_first(rest);
            count += 1;
        }
        count
    }

    /// The label at an index. This is a walk from the first label on: go over all of them by
    /// `labels`.
    pub fn label(&self, index: usize) -> &[u8]
        requires { index < length self.now }
        ensures value { slice_get self.now index ≡ Some result.now }
        ensures label { IsLabel result.now }
    {
        first_label(behind(self.wire.as_slice(), index))
    }

    /// The name without its first labels.
    pub fn suffix(&self, alloc: Global, from: usize) -> Result<Name, NoMemory>
        requires { from ≤ length self.now }
        ensures { IfOk result (λ n. n ≡ drop from self.now) }
    {
        Name::of_wire(alloc, behind(self.wire.as_slice(), from))
    }
}

impl Copies for Name {
    fn copy(&self, alloc: Global) -> Result<Name, NoMemory> {
        Ok(Name {
            wire: self.wire.copy(alloc)?,
        })
    }
}

// What stands behind the first labels.
fn behind(wire: &[u8], count: usize) -> &[u8]
    requires wire { IsWire wire.now }
    requires inside { count ≤ length (labels_of wire.now) }
    ensures { result.now ≡ spelled (drop count (labels_of wire.now)) }
{
    let mut rest = wire;
    for index in 0..count {
        rest = behind_first(rest);
    }
    rest
}

// What stands behind the label at the head.
#[inline]
pub(crate) fn behind_first(rest: &[u8]) -> &[u8]
    requires { slice_index rest.now 0 + 1 ≤ length rest.now }
    ensures { result.now ≡ drop (slice_index rest.now 0 + 1) rest.now }
{
    &rest[rest[0] as usize + 1..]
}

// The label at the head.
#[inline]
pub(crate) fn first_label(rest: &[u8]) -> &[u8]
    requires { slice_index rest.now 0 + 1 ≤ length rest.now }
    ensures { result.now ≡ take (slice_index rest.now 0) (drop 1 rest.now) }
{
    &rest[1..rest[0] as usize + 1]
}
