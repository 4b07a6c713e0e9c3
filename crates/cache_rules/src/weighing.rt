//! What an entry weighs.
ghost use Rattle.std.specs.Prelude.{◌≡◌, ◌+◌, ◌-◌, ◌^◌, min, nat_le};
ghost use Rattle.outside.specs.Weight.{got_weight, inner_weight, weight_of};
ghost use Rattle.cache_rules.specs.Weight.{answer_weight, entry_weight, record_weight};
ghost use Rattle.cache_rules.specs.Weight.{records_weight, until};

use dns_data::{Answer, Record};
use outside::{InnerMark, Outcome};

/// How much an entry may weigh.
const MOST: u64 = 16_384;

/// Whether an answer and the inner marks that led to it are light enough for a cache.
pub fn is_light(answer: &Answer, inner: &[InnerMark]) -> bool
    ensures { result ≡ nat_le (entry_weight answer.now inner.now) 16384 }
{
    let weight = answer_weight(answer);
    weight.saturating_add(inner_weight(inner)) <= MOST
}

fn answer_weight(answer: &Answer) -> u64
    ensures { result ≡ until (answer_weight answer.now) }
{
    records_weight(answer.answer.as_slice())
        .saturating_add(records_weight(answer.authority.as_slice()))
        .saturating_add(records_weight(answer.additional.as_slice()))
}

fn records_weight(records: &[Record]) -> u64
    ensures { result ≡ until (records_weight records.now) }
{
    let mut weight: u64 = 0;
    for entry in records {
        weight = weight.saturating_add(record_weight(entry));
    }
    weight
}

fn record_weight(entry: &Record) -> u64
    ensures { result ≡ record_weight entry.now }
{
    let length = entry.owner.wire_len() + 10 + entry.rdata.data_len();
    length as u64
}

fn inner_weight(marks: &[InnerMark]) -> u64
    ensures { result ≡ until (inner_weight marks.now) }
{
    let mut weight: u64 = 0;
    for mark in marks {
        weight = weight.saturating_add(mark_weight(mark));
    }
    weight
}

fn mark_weight(mark: &InnerMark) -> u64
    ensures { result ≡ until (weight_of mark.now) }
{
    match mark {
        InnerMark::Word(_) | InnerMark::Drawn(_, _) | InnerMark::Reported(_, _) => 8,
        InnerMark::Asked(_, _, message, outcome) => {
            (message.len() as u64).saturating_add(got_weight(outcome))
        }
        InnerMark::More(outcome) => got_weight(outcome),
    }
}

fn got_weight(outcome: &Outcome) -> u64
    ensures { result ≡ until (got_weight outcome.now) }
{
    match outcome {
        Outcome::Got(bytes) => bytes.len() as u64,
        Outcome::Silence | Outcome::Failed | Outcome::NoMemory => 0,
    }
}
