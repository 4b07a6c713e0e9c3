ghost use Rattle.std.specs.Prelude.{◌≡◌, ◌<◌, ◌≤◌, [], ◌∷◌, length, take, drop, MatchOption};
ghost use Rattle.corefile_words.specs.Lines.{before};
ghost use Rattle.hosts_plugin.specs.Listings.{is_blank, is_hash, uncommented, words_in};

/// A line without its comment.
pub(crate) fn uncommented(line: &[u8]) -> &[u8]
    ensures { result.now ≡ uncommented line.now }
{
    let (text, _) = line.split_at(text_size(line));
    text
}

// How many bytes stand before a comment.
fn text_size(line: &[u8]) -> usize
    ensures value { result ≡ length (before is_hash line.now) }
    ensures inside { result ≤ length line.now }
{
    line.iter().position(|b| is_hash(*b)).unwrap_or(line.len())
}

/// The first word of a line, and what stands behind it.
pub(crate) fn next_word(line: &[u8]) -> Option<(&[u8], &[u8])>
    ensures words { MatchOption result (words_in line.now ≡ [])
        (λ cut. words_in line.now ≡ cut.0.now ∷ words_in cut.1.now) }
    ensures shorter { MatchOption result (words_in line.now ≡ [])
        (λ cut. length cut.1.now < length line.now) }
{
    let mut rest = line;
    while let Some((byte, behind)) = rest.split_first() {
        if is_blank(*byte) {
            rest = behind;
        } else {
            return Some(first_word(rest));
        }
    }
    None
}

// The word with which a line begins, and what stands behind it.
fn first_word(line: &[u8]) -> (&[u8], &[u8])
    requires { 0 < length (before is_blank line.now) }
    ensures words { words_in line.now ≡ result.0.now ∷ words_in result.1.now }
    ensures shorter { length result.1.now < length line.now }
{
    line.split_at(word_size(line))
}

// How many bytes stand before the first blank.
fn word_size(line: &[u8]) -> usize
    ensures value { result ≡ length (before is_blank line.now) }
    ensures inside { result ≤ length line.now }
{
    line.iter().position(|b| is_blank(*b)).unwrap_or(line.len())
}

// Whether a byte parts words.
fn is_blank(byte: u8) -> bool
    ensures { result ≡ is_blank byte }
{
    byte == b' ' || byte == b'\t'
}

// Whether a byte begins a comment.
fn is_hash(byte: u8) -> bool
    ensures { result ≡ is_hash byte }
{
    byte == b'#'
}
