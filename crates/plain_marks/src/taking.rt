//! Single marks are taken.

ghost use Rattle.std.specs.Bool.{beq};
ghost use Rattle.std.specs.Prelude.{◌≡◌, ◌==◌, ◌&&◌, is_some, IfOk};
ghost use Rattle.cache_rules.specs.{key_of};
ghost use Rattle.chain_meaning.specs.Caching.{take_looked, take_now, take_put};
ghost use Rattle.chain_meaning.specs.Mean.{take_note};
ghost use Rattle.forward_plugin.specs.Forward.{outcome_means, take_ask, take_drawn, take_more};
ghost use Rattle.forward_plugin.specs.Forward.{take_reported, take_word};
ghost use Rattle.outside.specs.{same_entry, same_key};
ghost use Rattle.plain_marks.specs.Meant.{Means};

use crate::meant::Meant;
use chain_meaning::Decision;
use dns_data::{Answer, Copies, NoMemory, Transport};
use outside::{Entry, InnerMark, Key, Mark, Outcome, Upstream, is_same_ask};
use std::alloc::Global;
use upstream_health::Drawn;

/// What an upstream is asked: whom, over what, and with which bytes.
#[derive(Drop)]
pub(crate) struct Ask<'a> {
    pub to: Upstream,
    pub by: Transport,
    pub message: &'a [u8],
}

/// The mark of this line, whether it went out or not.
pub fn take_note<'a>(line: &[u8], decision: Decision, marks: &'a [Mark]) -> Meant<'a, Decision>
    ensures { Means (take_note line.now decision) marks.now result }
{
    let Some((mark, left)) = marks.split_first() else {
        return Meant::More;
    };
    match mark {
        Mark::Noted(other, _) => {
            if line == other.as_slice() {
                Meant::Done(decision, left)
            } else {
                Meant::Off(marks)
            }
        }
        _ => Meant::Off(marks),
    }
}

/// A reading of the clock, in milliseconds.
pub(crate) fn take_now<'a>(marks: &'a [Mark]) -> Meant<'a, u64>
    ensures { Means take_now marks.now result }
{
    let Some((mark, left)) = marks.split_first() else {
        return Meant::More;
    };
    match mark {
        Mark::Now(moment) => Meant::Done(*moment, left),
        _ => Meant::Off(marks),
    }
}

/// A look under this key at this moment, and the entry that it found.
pub(crate) fn take_looked<'a>(
    alloc: Global,
    key: &Key,
    moment: u64,
    marks: &'a [Mark],
) -> Result<Meant<'a, Option<Entry>>, NoMemory>
    ensures { IfOk result (Means (take_looked key.now moment) marks.now) }
{
    let Some((mark, left)) = marks.split_first() else {
        return Ok(Meant::More);
    };
    match mark {
        Mark::Looked(other, at, found) => {
            if is_look(key, moment, other, *at) {
                Ok(Meant::Done(copied(alloc, found)?, left))
            } else {
                Ok(Meant::Off(marks))
            }
        }
        _ => Ok(Meant::Off(marks)),
    }
}

// Whether a look is the one under this key at this moment.
fn is_look(key: &Key, moment: u64, other: &Key, at: u64) -> bool
    ensures { result ≡ (same_key key.now other.now && at == moment) }
{
    key.is_same(other) && at == moment
}

fn copied(alloc: Global, found: &Option<Entry>) -> Result<Option<Entry>, NoMemory>
    ensures { IfOk result (λ copy. copy ≡ found.now) }
{
    match found {
        Some(entry) => Ok(Some(entry.copy(alloc)?)),
        None => Ok(None),
    }
}

/// A random word.
pub(crate) fn take_word<'a>(marks: &'a [Mark]) -> Meant<'a, u64>
    ensures { Means take_word marks.now result }
{
    let Some((mark, left)) = marks.split_first() else {
        return Meant::More;
    };
    match mark {
        Mark::Inner(inner) => match inner {
            InnerMark::Word(word) => Meant::Done(*word, left),
            _ => Meant::Off(marks),
        },
        _ => Meant::Off(marks),
    }
}

/// A draw from a pool.
pub(crate) fn take_drawn<'a>(marks: &'a [Mark]) -> Meant<'a, Drawn>
    ensures { Means take_drawn marks.now result }
{
    let Some((mark, left)) = marks.split_first() else {
        return Meant::More;
    };
    match mark {
        Mark::Inner(inner) => match inner {
            InnerMark::Drawn(number, down) => {
                let drawn = Drawn {
                    number: *number,
                    down: *down,
                };
                Meant::Done(drawn, left)
            }
            _ => Meant::Off(marks),
        },
        _ => Meant::Off(marks),
    }
}

/// Exactly this report to a pool, after a try that gave this.
pub(crate) fn take_reported<'a>(
    number: u32,
    answer: Option<Answer>,
    marks: &'a [Mark],
) -> Meant<'a, Option<Answer>>
    ensures { Means (take_reported number answer) marks.now result }
{
    let Some((mark, left)) = marks.split_first() else {
        return Meant::More;
    };
    match mark {
        Mark::Inner(inner) => match inner {
            InnerMark::Reported(upstream, agreed) => {
                if is_report(*upstream, *agreed, number, &answer) {
                    Meant::Done(answer, left)
                } else {
                    Meant::Off(marks)
                }
            }
            _ => Meant::Off(marks),
        },
        _ => Meant::Off(marks),
    }
}

// Whether a report is the one to this pool after a try that gave this.
fn is_report(upstream: u32, agreed: bool, number: u32, answer: &Option<Answer>) -> bool
    ensures { result ≡ (upstream == number && beq agreed (is_some answer.now)) }
{
    upstream == number && agreed == answer.is_some()
}

/// Exactly this ask, and what came of it.
pub(crate) fn take_ask<'a>(
    alloc: Global,
    ask: &Ask<'_>,
    marks: &'a [Mark],
) -> Result<Meant<'a, Outcome>, NoMemory>
    ensures { IfOk result (Means (take_ask ask.now.to ask.now.by ask.now.message.now) marks.now) }
{
    let Some((mark, left)) = marks.split_first() else {
        return Ok(Meant::More);
    };
    match mark {
        Mark::Inner(inner) => match inner {
            InnerMark::Asked(to, by, message, outcome) => {
                let others = message.as_slice();
                if is_same_ask(ask.to, ask.by, ask.message, *to, *by, others) {
                    outcome_means(alloc, outcome, left)
                } else {
                    Ok(Meant::Off(marks))
                }
            }
            _ => Ok(Meant::Off(marks)),
        },
        _ => Ok(Meant::Off(marks)),
    }
}

/// A look for a further datagram of the last ask.
pub(crate) fn take_more<'a>(
    alloc: Global,
    marks: &'a [Mark],
) -> Result<Meant<'a, Outcome>, NoMemory>
    ensures { IfOk result (Means take_more marks.now) }
{
    let Some((mark, left)) = marks.split_first() else {
        return Ok(Meant::More);
    };
    match mark {
        Mark::Inner(inner) => match inner {
            InnerMark::More(outcome) => outcome_means(alloc, outcome, left),
            _ => Ok(Meant::Off(marks)),
        },
        _ => Ok(Meant::Off(marks)),
    }
}

// What came of an ask. No mark follows on want of memory.
fn outcome_means<'a>(
    alloc: Global,
    outcome: &Outcome,
    left: &'a [Mark],
) -> Result<Meant<'a, Outcome>, NoMemory>
    ensures { IfOk result (Means (outcome_means outcome.now) left.now) }
{
    match outcome {
        Outcome::NoMemory => {
            if left.len() == 0 {
                Ok(Meant::More)
            } else {
                Ok(Meant::Off(left))
            }
        }
        Outcome::Got(_) | Outcome::Silence | Outcome::Failed => {
            Ok(Meant::Done(outcome.copy(alloc)?, left))
        }
    }
}

/// The put of this entry under this key, whether it was kept or not.
pub(crate) fn take_put<'a>(
    key: &Key,
    entry: &Entry,
    decision: Decision,
    marks: &'a [Mark],
) -> Meant<'a, Decision>
    requires { key.now ≡ key_of entry.now.origin }
    ensures { Means (take_put entry.now decision) marks.now result }
{
    let Some((mark, left)) = marks.split_first() else {
        return Meant::More;
    };
    match mark {
        Mark::Put(other, put, _) => {
            if is_put(key, entry, other, put) {
                Meant::Done(decision, left)
            } else {
                Meant::Off(marks)
            }
        }
        _ => Meant::Off(marks),
    }
}

// Whether a put is the one of this entry under this key.
fn is_put(key: &Key, entry: &Entry, other: &Key, put: &Entry) -> bool
    ensures { result ≡ (same_key key.now other.now && same_entry entry.now put.now) }
{
    key.is_same(other) && entry.is_same(put)
}
