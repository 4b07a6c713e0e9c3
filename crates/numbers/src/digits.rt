ghost use Rattle.std.specs.Prelude.{◌≡◌, ◌≤◌, ◌<◌, ◌^◌, IfSome};
ghost use Rattle.numbers.specs.Number.{number_of};

/// The number that a text of one to `most` decimal digits spells, zeros in front among them. `most`
/// is 18 at most, so that every such number has room.
pub fn read_digits(text: &[u8], most: usize) -> Option<u64>
    requires { most ≤ 18 }
    ensures value { result ≡ number_of most text.now }
    ensures small { IfSome result (λ number. number < 10 ^ most) }
{
    if text.len() == 0 || most < text.len() {
        return None;
    }
    let mut number: u64 = 0;
    for byte in text {
        if *byte < b'0' {
            return None;
        }
        if b'9' < *byte {
            return None;
        }
        number = 10 * number + (*byte - b'0') as u64;
    }
    Some(number)
}
