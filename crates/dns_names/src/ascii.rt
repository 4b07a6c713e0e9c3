ghost use Rattle.std.specs.Prelude.{◌≡◌, ◌↔◌, map, IsTrue, length};
ghost use Rattle.std.specs.Char.{to_ascii_lowercase};

use dns_lists::are_equal;

/// Whether the bytes are the same, ASCII case aside (RFC 4343). Mostly they are equal, or have
/// other lengths.
#[inline]
pub fn same_letters(a: &[u8], b: &[u8]) -> bool
    ensures { IsTrue result ↔ (map to_ascii_lowercase a.now ≡ map to_ascii_lowercase b.now) }
{
    if a.len() != b.len() {
        return false;
    }
    if are_equal(a, b) {
        return true;
    }
    are_same_letters(a, b)
}

// The same of as many bytes. No byte ends the walk early, so that the compiler takes many bytes at
// a time.
#[cold]
#[inline(never)]
fn are_same_letters(a: &[u8], b: &[u8]) -> bool
    requires { length a.now ≡ length b.now }
    ensures { IsTrue result ↔ (map to_ascii_lowercase a.now ≡ map to_ascii_lowercase b.now) }
{
    let mut same = true;
    for i in 0..a.len() {
        same &= a[i].to_ascii_lowercase() == b[i].to_ascii_lowercase();
    }
    same
}
