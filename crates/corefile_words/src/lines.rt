ghost use Rattle.std.specs.Prelude.{◌≡◌, ◌<◌, ◌≤◌, ◌+◌, ◌∷◌, length};
ghost use Rattle.corefile_words.specs.Lines.{is_line_end, before, lines_of};

/// The first line of a text, and what stands behind it.
pub fn first_line(text: &[u8]) -> (&[u8], &[u8])
    requires { 0 < length text.now }
    ensures lines { lines_of text.now ≡ result.0.now ∷ lines_of result.1.now }
    ensures shorter { length result.1.now < length text.now }
    ensures inside { length result.0.now + length result.1.now ≤ length text.now }
{
    let size = line_size(text);
    if size == text.len() {
        return (text, &text[size..]);
    }
    let behind = &text[size + 1..];
    if 0 < size && text[size - 1] == b'\r' {
        return (&text[..size - 1], behind);
    }
    (&text[..size], behind)
}

// How many bytes stand before the first LF.
fn line_size(text: &[u8]) -> usize
    ensures value { result ≡ length (before is_line_end text.now) }
    ensures inside { result ≤ length text.now }
{
    text.iter().position(|b| *b == b'\n').unwrap_or(text.len())
}
