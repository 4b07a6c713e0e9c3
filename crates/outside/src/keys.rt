//! Keys in tables, and the shards in which they stand.
ghost use Rattle.std.specs.Prelude.{◌≡◌, ◌<◌};
ghost use Rattle.dns_data.specs.{same_labels};
ghost use Rattle.outside.specs.Keys.{key_number, shard_of};
ghost use Rattle.outside.specs.Same.{same_key};

use crate::Key;
use dns_data::{Name, are_equal};
use std::hash::{Hash, Hasher};

impl Key {
    /// In which of the eight shards of a cache it stands, by the bytes of its name and its type.
    pub fn shard(&self) -> usize
        ensures place { result ≡ shard_of self.now }
        ensures low { result < 8 }
    {
        let mut sum = u32::from(self.kind);
        let wire = self.name.as_wire();
        for byte in wire {
            sum = sum.wrapping_add(u32::from(*byte));
        }
        (sum % 8) as usize
    }

    // The type with both bits above it.
    fn number(&self) -> u64
        ensures { result ≡ key_number self.now }
    {
        let mut number = u64::from(self.kind);
        if self.dnssec {
            number += 0x1_0000;
        }
        if self.cd {
            number += 0x2_0000;
        }
        number
    }
}

fn are_same_names(a: &Name, b: &Name) -> bool
    ensures { result ≡ same_labels a.now b.now }
{
    are_equal(a.as_wire(), b.as_wire())
}

impl PartialEq for Key {
    ghost use Rattle.std.specs.Cmp.{partial_equiv_from_equiv};
    ghost use Rattle.outside.specs.Keys.{key_equivalence};

    ghost eq = { same_key };

    ghost laws = { partial_equiv_from_equiv key_equivalence };

    fn eq(&self, other: &Key) -> bool {
        are_same_names(&self.name, &other.name)
            && self.kind == other.kind
            && self.dnssec == other.dnssec
            && self.cd == other.cd
    }
}

impl Eq for Key {
    ghost use Rattle.outside.specs.Keys.{key_equivalence};

    ghost laws = { key_equivalence };
}

impl Hash for Key {
    ghost use Rattle.outside.specs.Keys.{key_writes, same_writes};

    ghost hash_input = { key_writes };

    ghost respects_eq = { same_writes };

    fn hash<H: Hasher>(&self, state: &mut H) {
        state.write(self.name.as_wire());
        state.write_u64(self.number());
    }
}
