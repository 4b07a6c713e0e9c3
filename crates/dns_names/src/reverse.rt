ghost use Rattle.std.specs.Prelude.{◌≡◌, ◌<◌, ◌≤◌, ◌+◌, ◌^◌, [], ◌∷◌, ◌++◌, false, map, nat_eq};
ghost use Rattle.std.specs.Prelude.{OnOk, IfOk, IfSome};
ghost use Rattle.std.specs.Fmt.{decimal, digit_glyph};
ghost use Rattle.std.specs.Char.{to_ascii_lowercase};
ghost use Rattle.std.specs.Cmp.Lexicographic.{pointwise};
ghost use Rattle.dns_names.specs.Name.{lowered, spelled, wire_length};
ghost use Rattle.dns_names.specs.ReverseNames.{StandsFor, nibble_of, nibbles_back, reverse_of};
ghost use Rattle.dns_names.specs.ReverseNames.{reversed_of, v4_reverse, v4_reversed, v6_reverse};

use crate::ascii::same_letters;
use crate::{Labels, Name};
use dns_addr::{Addr, hex_digit, read_octet};
use dns_lists::NoMemory;
use std::alloc::Global;

const IN_ADDR_ARPA: &[u8] = b"\x07in-addr\x04arpa";

const IP6_ARPA: &[u8] = b"\x03ip6\x04arpa";

impl Name {
    /// The name that stands for an address (RFC 1035, section 3.5; RFC 3596, section 2.5).
    pub fn reverse(alloc: Global, addr: &Addr) -> Result<Name, NoMemory>
        ensures { IfOk result (λ name. name ≡ reverse_of addr.now) }
    {
        match *addr {
            Addr::V4(addr) => v4_reverse(alloc, addr),
            Addr::V6(addr) => v6_reverse(alloc, addr),
        }
    }

    /// The address whose whole reverse name this is, in small letters or capitals.
    #[tactic(auto, unfolding(crate::specs::ReverseNames::reversed_of))]
    pub fn reversed_addr(&self) -> Option<Addr>
        ensures value { result ≡ reversed_of self.now }
        ensures stands { StandsFor self.now result }
    {
        if let Some(addr) = v4_reversed(self.labels()) {
            return Some(Addr::V4(addr));
        }
        Some(Addr::V6(nibbles_back(self.labels(), 32)?))
    }
}

fn v4_reverse(alloc: Global, addr: u32) -> Result<Name, NoMemory>
    ensures { IfOk result (λ name. name ≡ v4_reverse addr) }
{
    let mut name = Name::with_capacity(alloc, 29)?;
    push_octet(&mut name, (addr % 256) as u8)?;
    push_octet(&mut name, ((addr >> 8) % 256) as u8)?;
    push_octet(&mut name, ((addr >> 16) % 256) as u8)?;
    push_octet(&mut name, (addr >> 24) as u8)?;
    name.push(b"in-addr")?;
    name.push(b"arpa")?;
    Ok(name)
}

// Adds a byte in decimal.
fn push_octet(name: &mut Name, octet: u8) -> Result<(), NoMemory>
    requires { wire_length name.old ≤ 200 }
    ensures value { OnOk result (name.new ≡ name.old ++ decimal octet ∷ []) }
    ensures room { OnOk result (wire_length name.new ≤ wire_length name.old + 4) }
{
    let (hundreds, tens, ones) = (
        b'0' + octet / 100,
        b'0' + octet / 10 % 10,
        b'0' + octet % 10,
    );
    if octet < 10 {
        name.push(&[ones])
    } else if octet < 100 {
        name.push(&[tens, ones])
    } else {
        name.push(&[hundreds, tens, ones])
    }
}

fn v6_reverse(alloc: Global, addr: u128) -> Result<Name, NoMemory>
    ensures { IfOk result (λ name. name ≡ v6_reverse addr) }
{
    let mut name = Name::with_capacity(alloc, 73)?;
    let mut rest = addr;
    for count in 0..32_usize {
        name.push(&[hex_glyph((rest % 16) as u8)])?;
        rest /= 16;
    }
    name.push(b"ip6")?;
    name.push(b"arpa")?;
    Ok(name)
}

// A hexadecimal digit.
fn hex_glyph(digit: u8) -> u8
    requires { digit < 16 }
    ensures { result ≡ digit_glyph false digit }
{
    if digit < 10 {
        b'0' + digit
    } else {
        b'a' + (digit - 10)
    }
}

// The IPv4 address of four labels under in-addr.arpa.
fn v4_reversed(mut labels: Labels<'_>) -> Option<u32>
    ensures { result ≡ v4_reversed labels.entry }
{
    let fourth = labels.next()?;
    let third = labels.next()?;
    let second = labels.next()?;
    let first = labels.next()?;
    if !is_zone(&labels, IN_ADDR_ARPA) {
        return None;
    }
    let fourth = u32::from(read_octet(fourth)?);
    let third = u32::from(read_octet(third)?);
    let second = u32::from(read_octet(second)?);
    let first = u32::from(read_octet(first)?);
    Some(16777216 * first + 65536 * second + 256 * third + fourth)
}

// Whether the labels are those of a zone in small letters, ASCII case aside.
fn is_zone(labels: &Labels<'_>, zone: &[u8]) -> bool
    requires { map to_ascii_lowercase zone.now ≡ zone.now }
    ensures { result ≡ pointwise nat_eq (spelled (lowered labels.now)) zone.now }
{
    same_letters(labels.as_wire(), zone)
}

// The number of so many labels of one digit under ip6.arpa, the lowest digit first.
fn nibbles_back(mut labels: Labels<'_>, count: u8) -> Option<u128>
    requires { count ≤ 32 }
    ensures value { result ≡ nibbles_back count labels.entry }
    ensures small { IfSome result (λ number. number < 16 ^ count) }
{
    if count == 0 {
        return if is_zone(&labels, IP6_ARPA) {
            Some(0)
        } else {
            None
        };
    }
    let digit = u128::from(nibble(labels.next()?)?);
    Some(digit + 16 * nibbles_back(labels, count - 1)?)
}

// The digit of a label of one byte.
fn nibble(label: &[u8]) -> Option<u8>
    ensures value { result ≡ nibble_of label.now }
    ensures small { IfSome result (λ digit. digit < 16) }
{
    let (byte, others) = label.split_first()?;
    match others.split_first() {
        None => hex_digit(*byte),
        Some(_) => None,
    }
}
