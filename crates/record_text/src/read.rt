ghost use Rattle.std.specs.Prelude.{◌≡◌, ◌<◌, ◌^◌, IsTrue};
ghost use Rattle.record_text.specs.Fields.{Answers};
ghost use Rattle.record_text.specs.Records.{begins_class, behind_class, behind_ttl, head_of};
ghost use Rattle.record_text.specs.Records.{owned, record_of, record_spelt};

use crate::fields::Fields;
use crate::rows::read_data;
use crate::word::read_words;
use crate::{Form, Place, RecordFault, Word, read_ttl};
use dns_data::{Name, Record, class};
use std::alloc::Global;

/// The record that a text spells, of one line and without comments. `ttl` is its TTL, in seconds,
/// where the text has none.
#[tactic(auto, unfolding(crate::specs::Records::record_spelt))]
pub fn read_record(
    alloc: Global,
    text: &[u8],
    origin: &Name,
    ttl: u32,
) -> Result<Record, RecordFault>
    requires { ttl < 2 ^ 31 }
    ensures { Answers (record_spelt text.now origin.now ttl) result }
{
    let words = read_words(alloc, text)?;
    let place = Place {
        origin,
        form: Form::Alone,
    };
    read_owned(alloc, words.as_slice(), &place, ttl)
}

/// The record that words spell, the first of which is its owner.
#[tactic(auto, unfolding(crate::specs::Records::owned))]
pub fn read_owned(
    alloc: Global,
    words: &[Word<'_>],
    place: &Place<'_>,
    ttl: u32,
) -> Result<Record, RecordFault>
    requires { ttl < 2 ^ 31 }
    ensures { Answers (owned place.now ttl words.now) result }
{
    let mut fields = Fields::new(words);
    let owner = fields.name(alloc, place)?;
    read_of_owner(alloc, fields.rest(), place, ttl, owner)
}

/// The record of an owner that the words behind it spell.
#[tactic(auto, unfolding(crate::specs::Records::record_of))]
pub fn read_of_owner(
    alloc: Global,
    words: &[Word<'_>],
    place: &Place<'_>,
    ttl: u32,
    owner: Name,
) -> Result<Record, RecordFault>
    requires { ttl < 2 ^ 31 }
    ensures { Answers (record_of place.now ttl owner words.now) result }
{
    let (ttl, words) = behind_head(words, ttl);
    let mut fields = Fields::new(words);
    let kind = fields.kind()?;
    let rdata = read_data(alloc, place, kind, fields.rest())?;
    Ok(Record::new(owner, class::IN, ttl, rdata))
}

/// The TTL, and the words behind TTL and class.
pub(crate) fn behind_head<'w, 'a>(words: &'w [Word<'a>], given: u32) -> (u32, &'w [Word<'a>])
    requires { given < 2 ^ 31 }
    ensures value { (result.0, result.1.now) ≡ head_of given words.now }
    ensures below { result.0 < 2 ^ 31 }
{
    if begins_class(words) {
        return behind_ttl(behind_class(words), given);
    }
    let (ttl, rest) = behind_ttl(words, given);
    (ttl, behind_class(rest))
}

// The TTL that stands there, or else the given one, and the words behind it.
fn behind_ttl<'w, 'a>(words: &'w [Word<'a>], given: u32) -> (u32, &'w [Word<'a>])
    requires { given < 2 ^ 31 }
    ensures value { (result.0, result.1.now) ≡ behind_ttl given words.now }
    ensures below { result.0 < 2 ^ 31 }
{
    let Some((word, rest)) = words.split_first() else {
        return (given, words);
    };
    match read_ttl(word.text) {
        Some(ttl) => (ttl, rest),
        None => (given, words),
    }
}

// The words behind the class, where that stands there.
fn behind_class<'w, 'a>(words: &'w [Word<'a>]) -> &'w [Word<'a>]
    ensures { result.now ≡ behind_class words.now }
{
    let Some((_, rest)) = words.split_first() else {
        return words;
    };
    if begins_class(words) {
        return rest;
    }
    words
}

fn begins_class(words: &[Word<'_>]) -> bool
    ensures { result ≡ begins_class words.now }
{
    let Some((word, _)) = words.split_first() else {
        return false;
    };
    word.text == b"IN".as_slice()
}
