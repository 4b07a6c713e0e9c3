//! Addresses of IPv6 that stand for addresses of IPv4 (RFC 6052, section 2.2).
ghost use Rattle.std.specs.Prelude.{◌≡◌, ◌<◌, ◌^◌, IfSome};
ghost use Rattle.dns64_plugin.specs.Prefixes.{embedded, extracted, prefix_in, upper_bits};

use dns_data::{Addr, Net, Text};

// 64:ff9b::/96, for all who have no prefix of their own (RFC 6052, section 2.1).
pub(crate) const WELL_KNOWN: u128 = 0x0064_ff9b << 64;

// How many values the lower 32 bits of an address have.
const LOWER_END: u128 = 1 << 32;

/// The upper 96 bits of the prefix that a word spells.
#[tactic(auto, unfolding(crate::specs::Prefixes::prefix_in))]
pub(crate) fn read_prefix(word: &Text) -> Option<u128>
    ensures value { result ≡ prefix_in word.now }
    ensures small { IfSome result (λ prefix. prefix < 2 ^ 96) }
{
    let net = Net::read(word.as_str().as_bytes())?;
    upper_bits(net)
}

fn upper_bits(net: Net) -> Option<u128>
    ensures value { result ≡ upper_bits net.addr net.bits }
    ensures small { IfSome result (λ prefix. prefix < 2 ^ 96) }
{
    match net.addr {
        Addr::V4(_) => None,
        Addr::V6(addr) => {
            if net.bits == 96 {
                return Some(addr / LOWER_END);
            }
            None
        }
    }
}

/// The address of IPv6 that stands for one of IPv4.
#[inline]
pub(crate) fn embedded(prefix: u128, addr: u32) -> u128
    requires { prefix < 2 ^ 96 }
    ensures { result ≡ embedded prefix addr }
{
    prefix * LOWER_END + u128::from(addr)
}

/// The address of IPv4 for which one of IPv6 stands, where it is within the prefix.
pub(crate) fn extracted(prefix: u128, addr: u128) -> Option<u32>
    ensures { result ≡ extracted prefix addr }
{
    if addr / LOWER_END == prefix {
        return Some((addr % LOWER_END) as u32);
    }
    None
}
