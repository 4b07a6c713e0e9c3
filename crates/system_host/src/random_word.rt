use std::random::RandomSource;

/// A word of the system's random source; 0 where that fails.
pub(crate) fn word_of(source: &impl RandomSource) -> u64 {
    let mut bytes = [0u8; 8];
    if source.fill_bytes(&mut bytes).is_err() {
        return 0;
    }
    u64::from_ne_bytes(bytes)
}
