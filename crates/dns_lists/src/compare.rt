ghost use Rattle.std.specs.Prelude.{◌≡◌, ◌↔◌, ◌+◌, ◌≤◌, length, IsTrue};
ghost use Rattle.std.specs.Int.{w64, from_le_bytes};
ghost use Rattle.std.specs.List.{slice_range};

// How many bytes are taken at a time.
const WORD: usize = 8;

/// Whether the bytes are equal.
#[inline]
pub fn are_equal(a: &[u8], b: &[u8]) -> bool
    ensures { IsTrue result ↔ (a.now ≡ b.now) }
{
    if a.len() != b.len() {
        return false;
    }
    if a.len() < WORD {
        return a == b;
    }
    are_same_words(a, b)
}

// The last word may overlap the one before it.
#[inline]
fn are_same_words(a: &[u8], b: &[u8]) -> bool
    requires long { 8 ≤ length a.now }
    requires same { length a.now ≡ length b.now }
    ensures { IsTrue result ↔ (a.now ≡ b.now) }
{
    let last = a.len() - WORD;
    let mut at = 0;
    while at < last {
        if !is_same_word(a, b, at) {
            return false;
        }
        at += WORD;
    }
    is_same_word(a, b, last)
}

#[inline]
fn is_same_word(a: &[u8], b: &[u8], at: usize) -> bool
    requires a { at + 8 ≤ length a.now }
    requires b { at + 8 ≤ length b.now }
    ensures { IsTrue result ↔ (slice_range a.now at (at + 8) ≡ slice_range b.now at (at + 8)) }
{
    word_at(a, at) == word_at(b, at)
}

#[inline]
fn word_at(bytes: &[u8], at: usize) -> u64
    requires { at + 8 ≤ length bytes.now }
    ensures { result ≡ from_le_bytes w64 (slice_range bytes.now at (at + 8)) }
{
    let mut word = [0; WORD];
    word.copy_from_slice(&bytes[at..at + WORD]);
    u64::from_le_bytes(word)
}
