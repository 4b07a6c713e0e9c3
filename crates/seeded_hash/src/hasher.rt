use crate::mixing::written;
use std::hash::{BuildHasher, Hasher};

/// What a table's hashes begin with: two random words, which clients can't know. Without them a
/// client can't tell which keys fall together.
#[derive(Clone, Copy)]
pub struct Seed {
    state: u64,
    factor: u64,
}

// 2^64 divided by the golden ratio.
const SPREAD: u64 = 0x9e37_79b9_7f4a_7c15;

impl Seed {
    /// A seed of two random words. Small ones, and 0 where no random source answers, spread keys as
    /// well, though clients may know them.
    pub fn new(state: u64, factor: u64) -> Seed {
        Seed {
            state,
            factor: (factor ^ SPREAD) | 1,
        }
    }
}

/// A hash as it is made. Each eight bytes are added to the state, which is multiplied by the seed's
/// factor; both halves of the product, added, are the next state.
#[derive(Clone, Copy, Drop)]
pub struct SeededHasher {
    state: u64,
    factor: u64,
}

impl Hasher for SeededHasher {
    ghost use Rattle.seeded_hash.specs.Hashers.{after};

    ghost write = { after };

    ghost finish = { λ h. h.state };

    #[inline]
    fn write(&mut self, bytes: &[u8]) {
        self.state = written(self.factor, self.state, bytes);
    }

    #[inline]
    fn finish(&self) -> u64 {
        self.state
    }
}

impl BuildHasher for Seed {
    type Hasher = SeededHasher;

    ghost use Rattle.seeded_hash.specs.Hashers.{begun_by};

    ghost build_hasher = { begun_by };

    #[inline]
    fn build_hasher(&self) -> SeededHasher {
        SeededHasher {
            state: self.state,
            factor: self.factor,
        }
    }
}
