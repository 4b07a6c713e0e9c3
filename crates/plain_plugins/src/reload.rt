ghost use Rattle.std.specs.Prelude.{◌≡◌};
ghost use Rattle.plain_plugins.specs.Reload.{duration_why, interval_of, jitter_of, reload_times};
ghost use Rattle.plain_plugins.specs.Reload.{reload_why};

use dns_data::Text;
use numbers::read_duration;
use plugin_api::DirectiveWhy;

/// How often the files of a configuration are looked at: after the interval, and up to the jitter
/// more or less. Both are in milliseconds.
#[derive(Clone, Copy, Debug, PartialEq, Eq)]
pub struct ReloadTimes {
    /// At least 2,000.
    pub interval: u64,
    /// At most half of the interval.
    pub jitter: u64,
}

/// The times that the words of a `reload` give.
#[tactic(auto, unfolding(crate::specs::Reload::reload_times))]
pub fn reload_times(words: &[Text]) -> ReloadTimes
    ensures { result ≡ reload_times words.now }
{
    let interval = interval_of(words);
    let jitter = jitter_of(words);
    ReloadTimes {
        interval,
        jitter: jitter.min(interval / 2),
    }
}

fn interval_of(words: &[Text]) -> u64
    ensures { result ≡ interval_of words.now }
{
    match words {
        [] => 30_000,
        [word, ..] => match read_duration(word.as_str().as_bytes()) {
            Some(millis) => millis.max(2_000),
            None => 30_000,
        },
    }
}

fn jitter_of(words: &[Text]) -> u64
    ensures { result ≡ jitter_of words.now }
{
    match words {
        [_, word, ..] => match read_duration(word.as_str().as_bytes()) {
            Some(millis) => millis.max(1_000),
            None => 15_000,
        },
        _ => 15_000,
    }
}

/// Why the words of a `reload` aren't at most two durations.
pub(crate) fn reload_why(words: &[Text]) -> Option<DirectiveWhy>
    ensures { result ≡ reload_why words.now }
{
    match words {
        [] => None,
        [interval] => duration_why(interval),
        [interval, jitter, rest @ ..] => {
            if let Some(why) = duration_why(interval) {
                return Some(why);
            }
            if let Some(why) = duration_why(jitter) {
                return Some(why);
            }
            if rest.is_empty() {
                return None;
            }
            Some(DirectiveWhy::Args)
        }
    }
}

fn duration_why(word: &Text) -> Option<DirectiveWhy>
    ensures { result ≡ duration_why word.now }
{
    if read_duration(word.as_str().as_bytes()).is_some() {
        return None;
    }
    Some(DirectiveWhy::Number)
}
