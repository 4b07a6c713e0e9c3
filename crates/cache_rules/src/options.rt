//! The words of the directive.
ghost use Rattle.std.specs.Prelude.{◌≡◌, ◌≤◌, ◌<◌, ◌^◌, codes, IfSome};
ghost use Rattle.cache_rules.specs.Options.{capacity_in, choice_of, is_digits, number_in, opened};
ghost use Rattle.cache_rules.specs.Options.{seconds_in, ttl_in, ttl_of, whole_seconds, within};
ghost use Rattle.cache_rules.specs.Options.{words_of_zones};

use dns_data::Text;
use numbers::{read_digits, read_duration};

/// What a line of the body is, by its first word.
#[derive(Clone, Copy, Debug, PartialEq, Eq)]
pub enum Opens {
    Success,
    Denial,
    Servfail,
    Disable,
    Keepttl,
    /// No option.
    Nothing,
}

/// Which class a line `disable` names.
#[derive(Clone, Copy, Debug, PartialEq, Eq)]
pub enum Choice {
    Success,
    Denial,
    Neither,
}

/// Which options stood in lines before.
#[derive(Clone, Copy, Debug, PartialEq, Eq)]
pub struct Seen {
    pub success: bool,
    pub denial: bool,
    pub servfail: bool,
    pub no_success: bool,
    pub no_denial: bool,
    pub keepttl: bool,
}

/// What a line is that begins with this word.
pub(crate) fn opened(word: &Text) -> Opens
    ensures { result ≡ opened word.now }
{
    match word.as_str() {
        "success" => Opens::Success,
        "denial" => Opens::Denial,
        "servfail" => Opens::Servfail,
        "disable" => Opens::Disable,
        "keepttl" => Opens::Keepttl,
        _ => Opens::Nothing,
    }
}

/// Which class a word behind `disable` names.
pub(crate) fn chosen(word: &Text) -> Choice
    ensures { result ≡ choice_of word.now }
{
    match word.as_str() {
        "success" => Choice::Success,
        "denial" => Choice::Denial,
        _ => Choice::Neither,
    }
}

/// The TTL that a word spells: 1 to 2^31 - 1.
pub(crate) fn read_ttl(word: &Text) -> Option<u32>
    ensures value { result ≡ ttl_in word.now }
    ensures small { IfSome result (λ ttl. ttl < 2 ^ 31) }
{
    number_in(word, 1, 2_147_483_647)
}

/// The capacity that a word spells.
pub(crate) fn read_capacity(word: &Text) -> Option<u32>
    ensures value { result ≡ capacity_in word.now }
    ensures range { IfSome result (λ capacity. (8 ≤ capacity) × (capacity ≤ 1000000)) }
{
    number_in(word, 8, 1_000_000)
}

fn number_in(word: &Text, least: u32, most: u32) -> Option<u32>
    ensures value { result ≡ number_in least most word.now }
    ensures range { IfSome result (λ number. (least ≤ number) × (number ≤ most)) }
{
    within(read_digits(word.as_str().as_bytes(), 10)?, least, most)
}

fn within(number: u64, least: u32, most: u32) -> Option<u32>
    ensures value { result ≡ within least most number }
    ensures range { IfSome result (λ number. (least ≤ number) × (number ≤ most)) }
{
    if u64::from(least) <= number && number <= u64::from(most) {
        return Some(number as u32);
    }
    None
}

/// The whole seconds of the duration that a word spells, 300 at most.
pub(crate) fn read_seconds(word: &Text) -> Option<u32>
    ensures value { result ≡ seconds_in word.now }
    ensures few { IfSome result (λ seconds. seconds ≤ 300) }
{
    whole_seconds(read_duration(word.as_str().as_bytes())?)
}

fn whole_seconds(millis: u64) -> Option<u32>
    ensures value { result ≡ whole_seconds millis }
    ensures few { IfSome result (λ seconds. seconds ≤ 300) }
{
    if millis <= 300_000 && millis % 1_000 == 0 {
        return Some((millis / 1_000) as u32);
    }
    None
}

/// Whether a word is digits alone.
pub(crate) fn is_digits(word: &[u8]) -> bool
    ensures { result ≡ is_digits word.now }
{
    if word.is_empty() {
        return false;
    }
    for byte in word {
        if !byte.is_ascii_digit() {
            return false;
        }
    }
    true
}

/// The words of zones, without a TTL in front.
pub(crate) fn words_of_zones(words: &[Text]) -> &[Text]
    ensures { result.now ≡ words_of_zones words.now }
{
    match words.split_first() {
        Some((word, rest)) => {
            if is_digits(word.as_str().as_bytes()) {
                return rest;
            }
            words
        }
        None => words,
    }
}

/// The TTL in front.
pub(crate) fn ttl_of(words: &[Text]) -> Option<u32>
    ensures value { result ≡ ttl_of words.now }
    ensures small { IfSome result (λ ttl. ttl < 2 ^ 31) }
{
    let (word, _) = words.split_first()?;
    if is_digits(word.as_str().as_bytes()) {
        return read_ttl(word);
    }
    None
}
