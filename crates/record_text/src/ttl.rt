ghost use Rattle.std.specs.Prelude.{Some, ◌≡◌, ◌<◌, ◌^◌, IfSome};
ghost use Rattle.dns_data.specs.declared.limit.TheConstants as limits;
ghost use Rattle.record_text.specs.Ttls.{in_seconds, ttl_of, units_of};

use dns_data::limit::TTL_END;
use numbers::read_below;

/// The TTL that a text spells: seconds, or one or more numbers with their units (`1h30m`).
#[tactic(auto, unfolding(crate::specs::Ttls::ttl_of))]
pub fn read_ttl(text: &[u8]) -> Option<u32>
    ensures value { result ≡ ttl_of text.now }
    ensures below { IfSome result (λ ttl. ttl < limits.TTL_END) }
{
    match read_below(text, u64::from(TTL_END)) {
        Some(seconds) => Some(seconds as u32),
        None => read_units(text),
    }
}

// The sum of one or more numbers with units.
fn read_units(text: &[u8]) -> Option<u32>
    ensures value { result ≡ units_of text.now }
    ensures below { IfSome result (λ ttl. ttl < limits.TTL_END) }
{
    if text.is_empty() {
        return None;
    }
    let mut total: u64 = 0;
    let mut number: Option<u64> = None;
    let mut rest = text;
    while let Some((byte, behind)) = rest.split_first() {
        if byte.is_ascii_digit() {
            let digits = 10 * number.unwrap_or(0) + u64::from(*byte - b'0');
            if u64::from(TTL_END) <= digits {
                return None;
            }
            number = Some(digits);
        } else {
            total += seconds_of(number, *byte)?;
            if u64::from(TTL_END) <= total {
                return None;
            }
            number = None;
        }
        rest = behind;
    }
    match number {
        Some(_) => None,
        None => Some(total as u32),
    }
}

// A number, where one stands in front of its unit, in seconds.
fn seconds_of(number: Option<u64>, unit: u8) -> Option<u64>
    requires { IfSome number (λ n. n < limits.TTL_END) }
    ensures value { result ≡ in_seconds number unit }
    ensures small { IfSome result (λ seconds. seconds < 2 ^ 52) }
{
    in_seconds(number?, unit)
}

// A number and its unit, in seconds.
fn in_seconds(number: u64, byte: u8) -> Option<u64>
    requires { number < limits.TTL_END }
    ensures value { result ≡ in_seconds (Some number) byte }
    ensures small { IfSome result (λ seconds. seconds < 2 ^ 52) }
{
    match byte {
        b's' => Some(number),
        b'm' => Some(number * 60),
        b'h' => Some(number * 3600),
        b'd' => Some(number * 86400),
        b'w' => Some(number * 604800),
        _ => None,
    }
}
