ghost use Rattle.std.specs.Prelude.{◌≡◌, ◌+◌, ◌≤◌, length, option_map, IfSome, IsTrue};
ghost use Rattle.dns_addr.specs.AddrText.{begins_colons, colons_at, cut_once};

/// What stands before and behind the first byte of this value.
pub(crate) fn cut_once(text: &[u8], byte: u8) -> Option<(&[u8], &[u8])>
    ensures { option_map (λ cut. (cut.0.now, cut.1.now)) result ≡ cut_once byte text.now }
{
    for (at, other) in text.iter().enumerate() {
        if *other == byte {
            return Some((&text[..at], &text[at + 1..]));
        }
    }
    None
}

/// How many bytes stand before the first two colons that stand together.
pub(crate) fn colons_at(text: &[u8]) -> Option<usize>
    ensures value { result ≡ colons_at text.now }
    ensures inside { IfSome result (λ at. at + 2 ≤ length text.now) }
{
    for at in 0..text.len() {
        if begins_colons(&text[at..]) {
            return Some(at);
        }
    }
    None
}

fn begins_colons(text: &[u8]) -> bool
    ensures value { result ≡ begins_colons text.now }
    ensures inside { IsTrue result → 2 ≤ length text.now }
{
    1 < text.len() && text[0] == b':' && text[1] == b':'
}
