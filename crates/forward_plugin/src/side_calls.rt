//! Calls of a side, whose marks are kept for a cache.
ghost use Rattle.std.specs.Prelude.{◌≡◌, []};
ghost use Rattle.outside.specs.declared.entry.InnerMark.TheVariants as inner;
ghost use Rattle.forward_plugin.specs.Forward.{take_ask, take_more, take_word};
ghost use Rattle.forward_plugin.specs.Taking.{Forwards, KeepsOutcome, state_at};

use dns_data::{Bytes, Copies, NoMemory, Transport};
use outside::{InnerMark, Kept, Outcome, Side, Upstream};
use std::alloc::Global;

/// The next random word.
pub(crate) fn word<S: Side>(side: &mut S, kept: &mut Kept) -> Result<u64, NoMemory>
    ensures { Forwards take_word result (state_at (S.state side.old) kept.old [])
        (state_at (S.state side.new) kept.new []) }
{
    let word = side.word();
    kept.keep(InnerMark::Word(word))?;
    Ok(word)
}

/// An ask. Want of memory is the end.
pub(crate) fn ask<S: Side>(
    alloc: Global,
    to: &Upstream,
    by: Transport,
    message: &[u8],
    side: &mut S,
    kept: &mut Kept,
) -> Result<Outcome, NoMemory>
    ensures { Forwards (take_ask to.now by message.now) result
        (state_at (S.state side.old) kept.old []) (state_at (S.state side.new) kept.new []) }
{
    let outcome = side.ask(to, by, message);
    keep_ask(alloc, to, by, message, outcome, kept)
}

fn keep_ask(
    alloc: Global,
    to: &Upstream,
    by: Transport,
    message: &[u8],
    outcome: Outcome,
    kept: &mut Kept,
) -> Result<Outcome, NoMemory>
    ensures { KeepsOutcome outcome (inner.Asked to.now by message.now outcome) result kept.old
        kept.new }
{
    if let Outcome::NoMemory = outcome {
        return Err(NoMemory);
    }
    if kept.is_on() {
        let message = Bytes::from_slice(alloc, message)?;
        kept.keep(InnerMark::Asked(*to, by, message, outcome.copy(alloc)?))?;
    }
    Ok(outcome)
}

/// A further datagram of the last ask. Want of memory is the end.
pub(crate) fn more<S: Side>(
    alloc: Global,
    side: &mut S,
    kept: &mut Kept,
) -> Result<Outcome, NoMemory>
    ensures { Forwards take_more result (state_at (S.state side.old) kept.old [])
        (state_at (S.state side.new) kept.new []) }
{
    let outcome = side.more();
    keep_more(alloc, outcome, kept)
}

fn keep_more(alloc: Global, outcome: Outcome, kept: &mut Kept) -> Result<Outcome, NoMemory>
    ensures { KeepsOutcome outcome (inner.More outcome) result kept.old kept.new }
{
    if let Outcome::NoMemory = outcome {
        return Err(NoMemory);
    }
    if kept.is_on() {
        kept.keep(InnerMark::More(outcome.copy(alloc)?))?;
    }
    Ok(outcome)
}
