ghost use Rattle.std.specs.Prelude.{◌≡◌, ◌≤◌, ◌<◌, ◌*◌, ◌^◌, length, option_map, IfSome};
ghost use Rattle.std.specs.List.{list_all};
ghost use Rattle.std.specs.Char.{is_ascii_digit};
ghost use Rattle.numbers.specs.Duration.{day, digits_in_front, duration_of, if_day, in_unit};
ghost use Rattle.numbers.specs.Duration.{minutes, seconds_of, span_data, span_of, spans_from};

use crate::read_digits;

// 24 hours in milliseconds.
const DAY: u64 = 86_400_000;

/// The duration that a word spells, in milliseconds: digits alone are seconds, and else each number
/// has its unit behind it, `h`, `m`, `s` or `ms`, as in `1m30s`. A number has one to ten digits,
/// and the sum is 24 hours at most.
#[tactic(auto, unfolding(crate::specs::Duration::duration_of))]
pub fn read_duration(text: &[u8]) -> Option<u64>
    ensures value { result ≡ duration_of text.now }
    ensures most { IfSome result (λ millis. millis ≤ day) }
{
    if is_digits(text) {
        return read_seconds(text);
    }
    read_spans(text)
}

fn is_digits(text: &[u8]) -> bool
    ensures { result ≡ list_all is_ascii_digit text.now }
{
    for byte in text {
        if !byte.is_ascii_digit() {
            return false;
        }
    }
    true
}

fn read_seconds(text: &[u8]) -> Option<u64>
    ensures value { result ≡ seconds_of text.now }
    ensures most { IfSome result (λ millis. millis ≤ day) }
{
    let number = read_digits(text, 10)?;
    if_day(number, 1_000)
}

// A number of units, where it is at most 24 hours.
fn if_day(number: u64, unit: u64) -> Option<u64>
    requires number { number < 10 ^ 10 }
    requires unit { unit ≤ 1000 }
    ensures value { result ≡ if_day (unit * number) }
    ensures most { IfSome result (λ millis. millis ≤ day) }
{
    let millis = unit * number;
    if millis <= DAY {
        return Some(millis);
    }
    None
}

fn read_spans(text: &[u8]) -> Option<u64>
    ensures value { result ≡ spans_from (length text.now) 0 text.now }
    ensures most { IfSome result (λ millis. millis ≤ day) }
{
    let mut sum: u64 = 0;
    let mut rest = text;
    while 0 < rest.len() {
        let (millis, behind) = read_span(rest)?;
        if DAY < sum + millis {
            return None;
        }
        sum += millis;
        rest = behind;
    }
    Some(sum)
}

// The number in front with its unit, in milliseconds, and the text behind it.
#[tactic(auto, unfolding(crate::specs::Duration::span_of))]
fn read_span(text: &[u8]) -> Option<(u64, &[u8])>
    ensures value { option_map (λ span. span_data span.0 span.1.now) result ≡ span_of text.now }
    ensures small { IfSome result (λ span. span.0 < 2 ^ 62) }
    ensures shorter { IfSome result (λ span. length span.1.now < length text.now) }
{
    let digits = digits_in_front(text);
    let number = read_digits(&text[..digits], 10)?;
    in_unit(number, &text[digits..])
}

fn digits_in_front(text: &[u8]) -> usize
    ensures value { result ≡ digits_in_front text.now }
    ensures inside { result ≤ length text.now }
{
    for (at, byte) in text.iter().enumerate() {
        if !byte.is_ascii_digit() {
            return at;
        }
    }
    text.len()
}

// A number in the unit behind it, and the text behind that.
fn in_unit(number: u64, text: &[u8]) -> Option<(u64, &[u8])>
    requires { number < 10 ^ 10 }
    ensures value { option_map (λ span. span_data span.0 span.1.now) result
        ≡ in_unit number text.now }
    ensures small { IfSome result (λ span. span.0 < 2 ^ 62) }
    ensures shorter { IfSome result (λ span. length span.1.now < length text.now) }
{
    let (byte, rest) = text.split_first()?;
    if *byte == b'h' {
        return Some((3_600_000 * number, rest));
    }
    if *byte == b'm' {
        return Some(minutes(number, rest));
    }
    if *byte == b's' {
        return Some((1_000 * number, rest));
    }
    None
}

// Milliseconds where an `s` is behind the `m`, and else minutes.
fn minutes(number: u64, text: &[u8]) -> (u64, &[u8])
    requires { number < 10 ^ 10 }
    ensures value { span_data result.0 result.1.now ≡ minutes number text.now }
    ensures small { result.0 < 2 ^ 62 }
    ensures shorter { length result.1.now ≤ length text.now }
{
    if let Some((byte, rest)) = text.split_first() {
        if *byte == b's' {
            return (number, rest);
        }
    }
    (60_000 * number, text)
}
