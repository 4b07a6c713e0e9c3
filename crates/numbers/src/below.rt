ghost use Rattle.std.specs.Prelude.{◌≡◌, ◌≤◌, ◌<◌, ◌^◌, IfSome};
ghost use Rattle.numbers.specs.Below.{number_below};

/// The number that one or more decimal digits spell, where it is below an end. Needless zeros are
/// good.
#[tactic(auto, unfolding(crate::specs::Below::number_below))]
pub fn read_below(text: &[u8], end: u64) -> Option<u64>
    requires { end ≤ 2 ^ 32 }
    ensures value { result ≡ number_below end text.now }
    ensures below { IfSome result (λ number. number < end) }
{
    if text.is_empty() {
        return None;
    }
    let mut number: u64 = 0;
    for byte in text {
        if end <= number {
            return None;
        }
        if !byte.is_ascii_digit() {
            return None;
        }
        number = 10 * number + u64::from(*byte - b'0');
    }
    if end <= number {
        return None;
    }
    Some(number)
}
