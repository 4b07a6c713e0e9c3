ghost use Rattle.std.specs.Prelude.{◌≡◌, ◌^◌, ◌-◌, ◌/◌, ◌≤◌, IfSome};
ghost use Rattle.dns_addr.specs.AddrText.{agree, bits_of, net_of, width};

use crate::Addr;
use crate::cut::cut_once;

/// A net: the addresses that agree with one of them in the first bits. Its other bits count for
/// nothing.
#[derive(Clone, Copy, Debug, PartialEq, Eq)]
pub struct Net {
    pub addr: Addr,
    /// How many bits, from the highest: 0 to 32 for IPv4, 0 to 128 for IPv6.
    pub bits: u8,
}

impl Net {
    /// The net that a text spells: an address alone, which means all its bits, or an address, `/`
    /// and a number of bits.
    #[tactic(auto, unfolding(crate::specs::AddrText::net_of))]
    pub fn read(text: &[u8]) -> Option<Net>
        ensures { result ≡ net_of text.now }
    {
        let Some((front, back)) = cut_once(text, b'/') else {
            let addr = Addr::read(text)?;
            return Some(Net {
                addr,
                bits: width(addr),
            });
        };
        let addr = Addr::read(front)?;
        let bits = read_bits(back, width(addr))?;
        Some(Net { addr, bits })
    }

    /// Whether an address is of the net's family and agrees with it in the first bits.
    pub fn holds(&self, addr: &Addr) -> bool
        ensures { result ≡ agree self.now.bits self.now.addr addr.now }
    {
        match (self.addr, *addr) {
            (Addr::V4(a), Addr::V4(b)) => v4_prefix(a, self.bits) == v4_prefix(b, self.bits),
            (Addr::V6(a), Addr::V6(b)) => v6_prefix(a, self.bits) == v6_prefix(b, self.bits),
            (Addr::V4(_), Addr::V6(_)) => false,
            (Addr::V6(_), Addr::V4(_)) => false,
        }
    }
}

// How many bits an address has.
fn width(addr: Addr) -> u8
    ensures { result ≡ width addr }
{
    match addr {
        Addr::V4(_) => 32,
        Addr::V6(_) => 128,
    }
}

// A number in decimal, at most so much.
fn read_bits(text: &[u8], most: u8) -> Option<u8>
    ensures { result ≡ bits_of most text.now }
{
    if text.len() == 0 {
        return None;
    }
    let mut number: u32 = 0;
    for byte in text {
        if u32::from(most) < number {
            return None;
        }
        if !byte.is_ascii_digit() {
            return None;
        }
        number = 10 * number + u32::from(*byte - b'0');
    }
    if u32::from(most) < number {
        return None;
    }
    Some(number as u8)
}

// The first bits as a number.
fn v4_prefix(addr: u32, bits: u8) -> u32
    ensures { result ≡ addr / 2 ^ (32 - bits) }
{
    if bits == 0 {
        return 0;
    }
    if 32 <= bits {
        return addr;
    }
    addr >> (32 - bits)
}

fn v6_prefix(addr: u128, bits: u8) -> u128
    ensures { result ≡ addr / 2 ^ (128 - bits) }
{
    if bits == 0 {
        return 0;
    }
    if 128 <= bits {
        return addr;
    }
    addr >> (128 - bits)
}
