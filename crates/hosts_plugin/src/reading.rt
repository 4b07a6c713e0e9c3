ghost use Rattle.std.specs.Prelude.{◌≡◌, IfOk};
ghost use Rattle.hosts_plugin.specs.Reading.{addresses_why, line_why, lines_fault};
ghost use Rattle.hosts_plugin.specs.Reading.{names_why, none_seen, some_names_why, ttl_why};
ghost use Rattle.hosts_plugin.specs.Hosts.{zones_behind};

use crate::listing::read_name;
use crate::options::{Opens, Seen, opened, read_ttl, seen_behind};
use dns_data::{Addr, Copies, Line, Names, NoMemory, Text};
use plugin_api::{DirectiveFault, DirectiveWhy, empty_why, fallthrough_why, once};
use std::alloc::Global;
use zone_words::read_zones;

/// The zones that the words behind the file name, or else these; None where a word names none.
pub(crate) fn zones_behind(
    alloc: Global,
    zones: &Names,
    words: &[Text],
) -> Result<Option<Names>, NoMemory>
    ensures { IfOk result (λ read. read ≡ zones_behind zones.now words.now) }
{
    match words.split_first() {
        Some((_, behind)) => read_zones(alloc, zones, behind),
        None => Ok(Some(zones.copy(alloc)?)),
    }
}

/// The fault of the first line that doesn't fit.
pub(crate) fn lines_fault(alloc: Global, lines: &[Line]) -> Result<Option<DirectiveFault>, NoMemory>
    ensures { IfOk result (λ fault. fault ≡ lines_fault none_seen lines.now) }
{
    let mut seen = Seen {
        ttl: false,
        no_reverse: false,
        fallthrough: false,
    };
    let mut rest = lines;
    while let Some((line, behind)) = rest.split_first() {
        if let Some(why) = line_why(alloc, seen, line.words.as_slice())? {
            return Ok(Some(DirectiveFault::Why {
                line: line.number,
                why,
            }));
        }
        seen = seen_behind(seen, line.words.as_slice());
        rest = behind;
    }
    Ok(None)
}

// Why a line doesn't fit, behind lines with these options.
fn line_why(alloc: Global, seen: Seen, words: &[Text]) -> Result<Option<DirectiveWhy>, NoMemory>
    ensures { IfOk result (λ why. why ≡ line_why seen words.now) }
{
    let Some((word, behind)) = words.split_first() else {
        return Ok(Some(DirectiveWhy::Args));
    };
    match opened(word) {
        Opens::Ttl => Ok(once(seen.ttl, ttl_why(behind))),
        Opens::NoReverse => Ok(once(seen.no_reverse, empty_why(behind))),
        Opens::Fallthrough => {
            let why = fallthrough_why(alloc, behind)?;
            Ok(once(seen.fallthrough, why))
        }
        Opens::Addresses => addresses_why(alloc, word, behind),
    }
}

fn ttl_why(words: &[Text]) -> Option<DirectiveWhy>
    ensures { result ≡ ttl_why words.now }
{
    let Some((word, behind)) = words.split_first() else {
        return Some(DirectiveWhy::Args);
    };
    if read_ttl(word).is_none() {
        return Some(DirectiveWhy::Number);
    }
    empty_why(behind)
}

fn addresses_why(
    alloc: Global,
    word: &Text,
    words: &[Text],
) -> Result<Option<DirectiveWhy>, NoMemory>
    ensures { IfOk result (λ why. why ≡ addresses_why word.now words.now) }
{
    if Addr::read(word.as_str().as_bytes()).is_none() {
        return Ok(Some(DirectiveWhy::Net));
    }
    some_names_why(alloc, words)
}

fn some_names_why(alloc: Global, words: &[Text]) -> Result<Option<DirectiveWhy>, NoMemory>
    ensures { IfOk result (λ why. why ≡ some_names_why words.now) }
{
    if words.is_empty() {
        return Ok(Some(DirectiveWhy::Args));
    }
    names_why(alloc, words)
}

fn names_why(alloc: Global, words: &[Text]) -> Result<Option<DirectiveWhy>, NoMemory>
    ensures { IfOk result (λ why. why ≡ names_why words.now) }
{
    let mut rest = words;
    while let Some((word, behind)) = rest.split_first() {
        if read_name(alloc, word.as_str().as_bytes())?.is_none() {
            return Ok(Some(DirectiveWhy::Zone));
        }
        rest = behind;
    }
    Ok(None)
}
