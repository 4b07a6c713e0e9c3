ghost use Rattle.std.specs.Prelude.{◌≡◌};
ghost use Rattle.dns_data.specs.Message.{AnswerData};
ghost use Rattle.chain_meaning.specs.Mean.{error_noted, outcome_of, query_noted};
ghost use Rattle.chain_build.specs.Giving.{decision_in, gave};
ghost use Rattle.chain_build.specs.LoggedWalks.{TakesQuietly};
ghost use Rattle.chain_build.specs.Walking.{decided, decision_of};

use crate::ended::Ended;
use crate::given::{Given, as_given};
use chain_meaning::number;
use dns_data::{NoMemory, Query, Slot};
use outside::{Entry, Side};
use plain_plugins::{LogOutcome, PlainPlan, error_line, log_line};
use std::alloc::Global;

/// Notes the line of a code, and gives back how the chain ended. A hit is no code.
pub fn note_error<'a, S: Side>(
    alloc: Global,
    query: &Query,
    given: Given<'a>,
    side: &mut S,
) -> Result<Given<'a>, NoMemory>
    ensures { (answer : AnswerData)
        → TakesQuietly (error_noted query.now (decision_in given.entry answer))
        (gave result answer) (S.state side.old) (S.state side.new) }
{
    match given {
        Given::Ended(ended) => as_given(note_ended(alloc, query, ended, side)),
        Given::Hit(hit) => Ok(Given::Hit(hit)),
    }
}

// Notes the line of a code, and gives back how the chain ended.
fn note_ended<'a, S: Side>(
    alloc: Global,
    query: &Query,
    ended: Ended<'a>,
    side: &mut S,
) -> Result<Ended<'a>, NoMemory>
    ensures { (answer : AnswerData)
        → TakesQuietly (error_noted query.now (decision_of ended.entry answer))
        (decided result answer) (S.state side.old) (S.state side.new) }
{
    if let Ended::Code(code, cause) = ended {
        let line = error_line(alloc, query, code, cause)?;
        let _ = side.note(line.as_str().as_bytes());
        return Ok(ended);
    }
    Ok(ended)
}

/// Notes the line of a query in the zones of `log`, and gives back how the chain ended.
pub fn note_query<'a, S: Side>(
    alloc: Global,
    plan: &PlainPlan,
    query: &Query,
    given: Given<'a>,
    slot: &Slot,
    side: &mut S,
) -> Result<Given<'a>, NoMemory>
    ensures { TakesQuietly (query_noted plan.now query.now (decision_in given.entry slot.now))
        (gave result slot.now) (S.state side.old) (S.state side.new) }
{
    if !plan.covers(&query.name) {
        return Ok(given);
    }
    let line = log_line(alloc, query, outcome_of(&given, slot))?;
    let _ = side.note(line.as_str().as_bytes());
    Ok(given)
}

fn outcome_of(given: &Given<'_>, slot: &Slot) -> LogOutcome
    ensures { result ≡ outcome_of (decision_in given.now slot.now) }
{
    match given {
        Given::Ended(ended) => outcome_in(*ended, slot),
        Given::Hit(hit) => LogOutcome::Rcode(rcode_of(&hit.kept)),
    }
}

fn rcode_of(entry: &Entry) -> u8
    ensures { result ≡ entry.now.answer.rcode }
{
    entry.answer.rcode
}

fn outcome_in(ended: Ended<'_>, slot: &Slot) -> LogOutcome
    ensures { result ≡ outcome_of (decision_of ended.entry slot.now) }
{
    match ended {
        Ended::Reply | Ended::Lent(_) => LogOutcome::Rcode(slot.rcode),
        Ended::Code(code, _) => LogOutcome::Rcode(number(code)),
        Ended::Drop => LogOutcome::Dropped,
    }
}
