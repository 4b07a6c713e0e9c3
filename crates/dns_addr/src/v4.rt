ghost use Rattle.std.specs.Prelude.{◌≡◌};
ghost use Rattle.dns_addr.specs.AddrText.{octet_of, v4_of};

use crate::cut::cut_once;

/// The IPv4 address that the text spells: four numbers below 256 without needless zeros, parted by
/// dots.
#[tactic(auto, unfolding(crate::specs::AddrText::v4_of))]
pub(crate) fn read_v4(text: &[u8]) -> Option<u32>
    ensures { result ≡ v4_of text.now }
{
    let (first, text) = cut_once(text, b'.')?;
    let first = read_octet(first)?;
    let (second, text) = cut_once(text, b'.')?;
    let second = read_octet(second)?;
    let (third, fourth) = cut_once(text, b'.')?;
    let third = read_octet(third)?;
    let fourth = read_octet(fourth)?;
    Some(
        16777216 * u32::from(first)
            + 65536 * u32::from(second)
            + 256 * u32::from(third)
            + u32::from(fourth),
    )
}

/// A number below 256 without needless zeros.
pub fn read_octet(text: &[u8]) -> Option<u8>
    ensures { result ≡ octet_of text.now }
{
    let (a, text) = text.split_first()?;
    if !a.is_ascii_digit() {
        return None;
    }
    let Some((b, text)) = text.split_first() else {
        return Some(*a - b'0');
    };
    if !b.is_ascii_digit() || *a == b'0' {
        return None;
    }
    let Some((c, text)) = text.split_first() else {
        return Some(10 * (*a - b'0') + (*b - b'0'));
    };
    if !c.is_ascii_digit() || 0 < text.len() {
        return None;
    }
    let number = 100 * u16::from(*a - b'0') + 10 * u16::from(*b - b'0') + u16::from(*c - b'0');
    if 255 < number {
        return None;
    }
    Some(number as u8)
}
