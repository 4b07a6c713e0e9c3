use std::random::RandomSource;

// As many bytes as the system gives in one call.
const BYTES: usize = 256;

/// Words of the system's random source, of which it is asked for 32 at once.
#[derive(Drop)]
pub struct Words {
    bytes: [u8; BYTES],
    // How many of the bytes were given.
    given: usize,
}

impl Words {
    pub fn new() -> Words {
        Words {
            bytes: [0; BYTES],
            given: BYTES,
        }
    }

    /// The next word, or 0 where the system's source fails. Each is given once.
    pub fn next(&mut self, source: &impl RandomSource) -> u64 {
        if self.given >= BYTES {
            if source.fill_bytes(&mut self.bytes).is_err() {
                return 0;
            }
            self.given = 0;
        }
        let word = match self.bytes[self.given..].first_chunk::<8>() {
            Some(chunk) => u64::from_ne_bytes(*chunk),
            None => 0,
        };
        self.given += 8;
        word
    }
}
