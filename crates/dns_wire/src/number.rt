ghost use Rattle.std.specs.Prelude.{◌≡◌, ◌≤◌, ◌<◌, ◌+◌, ◌^◌, length};
ghost use Rattle.dns_wire.specs.Wire.{u16_at, u32_at, u128_at, flag_at};
ghost use Rattle.dns_wire.specs.Records.{ttl_at};

/// The number of 16 bits at an offset.
#[inline]
pub fn u16_at(bytes: &[u8], at: usize) -> u16
    requires { at + 1 < length bytes.now }
    ensures { result ≡ u16_at bytes.now at }
{
    256 * bytes[at] as u16 + bytes[at + 1] as u16
}

/// The number of 32 bits at an offset.
#[inline]
#[tactic(auto, unfolding(crate::specs::Wire::u32_at))]
pub fn u32_at(bytes: &[u8], at: usize) -> u32
    requires { at + 4 ≤ length bytes.now }
    ensures { result ≡ u32_at bytes.now at }
{
    65536 * u16_at(bytes, at) as u32 + u16_at(bytes, at + 2) as u32
}

/// The number of 128 bits at an offset.
#[tactic(auto, unfolding(crate::specs::Wire::u128_at))]
pub fn u128_at(bytes: &[u8], at: usize) -> u128
    requires { at + 16 ≤ length bytes.now }
    ensures { result ≡ u128_at bytes.now at }
{
    let first = u32_at(bytes, at) as u128;
    let second = u32_at(bytes, at + 4) as u128;
    let third = u32_at(bytes, at + 8) as u128;
    let fourth = u32_at(bytes, at + 12) as u128;
    let unit = 4_294_967_296;
    unit * (unit * (unit * first + second) + third) + fourth
}

/// The TTL at an offset.
pub fn ttl_at(bytes: &[u8], at: usize) -> u32
    requires { at + 4 ≤ length bytes.now }
    ensures value { result ≡ ttl_at bytes.now at }
    ensures small { result < 2 ^ 31 }
{
    let ttl = u32_at(bytes, at);
    if ttl < 2_147_483_648 { ttl } else { 0 }
}

/// A bit of the byte at an offset, from 0 for the lowest to 7.
#[inline]
pub fn flag_at(bytes: &[u8], at: usize, bit: u32) -> bool
    requires inside { at < length bytes.now }
    requires small { bit < 8 }
    ensures { result ≡ flag_at bytes.now at bit }
{
    bytes[at] / (1 << bit) % 2 == 1
}
