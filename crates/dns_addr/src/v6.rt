ghost use Rattle.std.specs.Prelude.{◌≡◌, ◌<◌, IfSome};
ghost use Rattle.dns_addr.specs.AddrText.{eight_groups, group_of, groups_of, hex_digit};
ghost use Rattle.dns_addr.specs.AddrText.{side_groups, v4_if, v6_of};

use crate::cut::{colons_at, cut_once};
use crate::groups::Groups;
use crate::v4::read_v4;

/// The IPv6 address that the text spells (RFC 4291, section 2.2).
#[tactic(auto, unfolding(crate::specs::AddrText::v6_of))]
pub(crate) fn read_v6(text: &[u8]) -> Option<u128>
    ensures { result ≡ v6_of text.now }
{
    let Some(at) = colons_at(text) else {
        let groups = read_groups(text, true)?;
        if groups.len() != 8 {
            return None;
        }
        return Some(groups.number());
    };
    let mut groups = read_side(&text[..at], false)?;
    let back = read_side(&text[at + 2..], true)?;
    if 8 <= groups.len() + back.len() {
        return None;
    }
    groups.fill_up(&back);
    Some(groups.number())
}

// The groups at one side of `::`, where none may be.
fn read_side(text: &[u8], tail: bool) -> Option<Groups>
    ensures { result ≡ side_groups tail text.now }
{
    if text.len() == 0 {
        return Some(Groups::new());
    }
    read_groups(text, tail)
}

// The groups that colons part, at most eight. At the end of an address the last two may be an IPv4
// address.
fn read_groups(text: &[u8], tail: bool) -> Option<Groups>
    ensures { result ≡ groups_of tail 8 text.now }
{
    let mut groups = Groups::new();
    let mut rest = text;
    while let Some((piece, behind)) = cut_once(rest, b':') {
        groups.push(read_group(piece)?)?;
        rest = behind;
    }
    let Some(addr) = read_v4_if(rest, tail) else {
        groups.push(read_group(rest)?)?;
        return Some(groups);
    };
    groups.push((addr / 65536) as u16)?;
    groups.push((addr % 65536) as u16)?;
    Some(groups)
}

fn read_v4_if(text: &[u8], tail: bool) -> Option<u32>
    ensures { result ≡ v4_if tail text.now }
{
    if tail { read_v4(text) } else { None }
}

// One to four hexadecimal digits.
fn read_group(text: &[u8]) -> Option<u16>
    ensures { result ≡ group_of text.now }
{
    let (a, text) = text.split_first()?;
    let number = u16::from(hex_digit(*a)?);
    let Some((b, text)) = text.split_first() else {
        return Some(number);
    };
    let number = 16 * number + u16::from(hex_digit(*b)?);
    let Some((c, text)) = text.split_first() else {
        return Some(number);
    };
    let number = 16 * number + u16::from(hex_digit(*c)?);
    let Some((d, text)) = text.split_first() else {
        return Some(number);
    };
    let number = 16 * number + u16::from(hex_digit(*d)?);
    match text.split_first() {
        None => Some(number),
        Some(_) => None,
    }
}

/// What a hexadecimal digit stands for, in small letters or capitals.
pub fn hex_digit(byte: u8) -> Option<u8>
    ensures value { result ≡ hex_digit byte }
    ensures small { IfSome result (λ digit. digit < 16) }
{
    match byte {
        b'0'..=b'9' => Some(byte - b'0'),
        b'a'..=b'f' => Some(byte - b'a' + 10),
        b'A'..=b'F' => Some(byte - b'A' + 10),
        _ => None,
    }
}
