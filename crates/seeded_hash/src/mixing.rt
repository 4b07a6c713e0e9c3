//! Bytes, eight at a time, mixed into a state.
ghost use Rattle.std.specs.Prelude.{◌≡◌, ◌+◌, ◌*◌, ◌-◌, ◌/◌, ◌^◌, ◌<◌, ◌≤◌, length};
ghost use Rattle.seeded_hash.specs.Mixing.{mixed, number_of, word_at, words_to, written};

// The numbers of a word of 64 bits.
const WORDS: u128 = 1 << 64;

/// The state behind bytes.
#[inline]
#[tactic(auto, unfolding(crate::specs::Mixing::written, crate::specs::Mixing::begun))]
pub(crate) fn written(factor: u64, state: u64, bytes: &[u8]) -> u64
    ensures { result ≡ written factor state bytes.now }
{
    let begun = state.wrapping_add(bytes.len() as u64);
    if bytes.len() < 8 {
        return mixed(factor, begun, number_of(bytes));
    }
    let state = words_of(factor, begun, bytes);
    mixed(factor, state, word_at(bytes, bytes.len() - 8))
}

// The state behind the words in front of the last eight bytes, which may overlap them.
#[inline]
#[tactic(auto, unfolding(crate::specs::Mixing::words_to))]
fn words_of(factor: u64, begun: u64, bytes: &[u8]) -> u64
    requires { 8 ≤ length bytes.now }
    ensures { result ≡ words_to factor begun ((length bytes.now - 1) / 8) bytes.now }
{
    let mut state = begun;
    for i in 0..(bytes.len() - 1) / 8 {
        state = mixed(factor, state, word_at(bytes, 8 * i));
    }
    state
}

#[inline]
#[tactic(auto, unfolding(crate::specs::Mixing::mixed, crate::specs::Mixing::product_of))]
fn mixed(factor: u64, state: u64, word: u64) -> u64
    ensures { result ≡ mixed factor state word }
{
    let product = u128::from(state.wrapping_add(word)) * u128::from(factor);
    let upper = (product / WORDS) as u64;
    let lower = (product % WORDS) as u64;
    upper.wrapping_add(lower)
}

#[inline]
#[tactic(auto, unfolding(crate::specs::Mixing::word_at))]
fn word_at(bytes: &[u8], at: usize) -> u64
    requires { at + 8 ≤ length bytes.now }
    ensures { result ≡ word_at bytes.now at }
{
    let mut word = [0; 8];
    word.copy_from_slice(&bytes[at..at + 8]);
    u64::from_le_bytes(word)
}

// A few bytes as a number.
#[inline]
fn number_of(bytes: &[u8]) -> u64
    ensures { result ≡ number_of 0 bytes.now }
{
    let mut number: u64 = 0;
    for byte in bytes {
        number = number.wrapping_mul(256).wrapping_add(u64::from(*byte));
    }
    number
}
