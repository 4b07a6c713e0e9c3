//! What a look into a cache means by a list of marks, and what is put behind a miss.

ghost use Rattle.std.specs.Prelude.{◌≡◌, ◌++◌, [], ◌∷◌, IfOk, OnOk};
ghost use Rattle.cache_rules.specs.{aged, key_of};
ghost use Rattle.outside.specs.Meanings.{Done, onward};
ghost use Rattle.chain_meaning.specs.Caching.{entry_for, inners_in, kept_with, put_or};
ghost use Rattle.chain_meaning.specs.Caching.{take_looked};
ghost use Rattle.plain_marks.specs.Caching.{look_means};
ghost use Rattle.plain_marks.specs.Meant.{Means};

use crate::meant::Meant;
use crate::taking::{take_looked, take_now, take_put};
use cache_rules::{CachePlan, aged, class_of, is_light, key_of};
use chain_meaning::Decision;
use dns_data::{Answer, Copies, NoMemory, Query, Slot};
use outside::{Entry, InnerMarks, Mark};
use std::alloc::Global;

/// What a look into a cache found under the key of a query, and when, in milliseconds.
pub fn take_look<'a>(
    alloc: Global,
    query: &Query,
    marks: &'a [Mark],
) -> Result<Meant<'a, (u64, Option<Entry>)>, NoMemory>
    ensures { IfOk result (Means (look_means (key_of query.now)) marks.now) }
{
    match take_now(marks) {
        Meant::Done(moment, left) => look_at(alloc, query, moment, left),
        Meant::More => Ok(Meant::More),
        Meant::Off(left) => Ok(Meant::Off(left)),
    }
}

// The same at this moment.
fn look_at<'a>(
    alloc: Global,
    query: &Query,
    moment: u64,
    marks: &'a [Mark],
) -> Result<Meant<'a, (u64, Option<Entry>)>, NoMemory>
    ensures { IfOk result (Means (λ some. onward (take_looked (key_of query.now) moment some)
        (λ entry more. Done (moment, entry) more)) marks.now) }
{
    let key = key_of(alloc, query)?;
    Ok(match take_looked(alloc, &key, moment, marks)? {
        Meant::Done(entry, left) => Meant::Done((moment, entry), left),
        Meant::More => Meant::More,
        Meant::Off(left) => Meant::Off(left),
    })
}

/// A query that a cache had no answer to, and when it was looked for, in milliseconds.
#[derive(Drop)]
pub struct Missed<'a> {
    pub alloc: Global,
    pub plan: &'a CachePlan,
    pub query: &'a Query,
    pub moment: u64,
}

/// What is decided behind a miss, once the rest has decided so by these marks: its reply is put
/// where it is kept.
pub fn kept_by<'a>(
    missed: &Missed<'_>,
    taken: &[Mark],
    decision: Decision,
    left: &'a [Mark],
) -> Result<Meant<'a, Decision>, NoMemory>
    ensures { IfOk result (Means (kept_with missed.now.plan.now missed.now.query.now
        missed.now.moment (inners_in taken.now) decision) left.now) }
{
    match decision {
        Decision::Reply(answer) => put_by(missed, taken, answer, left),
        Decision::Code(code, cause) => Ok(Meant::Done(Decision::Code(code, cause), left)),
        Decision::Drop => Ok(Meant::Done(Decision::Drop, left)),
    }
}

// The same of a reply.
fn put_by<'a>(
    missed: &Missed<'_>,
    taken: &[Mark],
    answer: Answer,
    left: &'a [Mark],
) -> Result<Meant<'a, Decision>, NoMemory>
    ensures { IfOk result (Means (put_or missed.now.plan.now missed.now.moment answer
        (entry_for missed.now.plan.now missed.now.query.now missed.now.moment answer
        (inners_in taken.now))) left.now) }
{
    let Some(entry) = entry_for(missed, taken, &answer)? else {
        return Ok(Meant::Done(Decision::Reply(answer), left));
    };
    let given = aged_answer(missed, &entry)?;
    let key = key_of(missed.alloc, &entry.origin)?;
    Ok(take_put(&key, &entry, Decision::Reply(given), left))
}

// The answer of an entry as it is given at once.
fn aged_answer(missed: &Missed<'_>, entry: &Entry) -> Result<Answer, NoMemory>
    ensures { IfOk result
        (λ answer. answer ≡ aged missed.now.plan.now entry.now missed.now.moment) }
{
    let mut slot = Slot::new(missed.alloc);
    aged(missed.alloc, missed.plan, entry, missed.moment, &mut slot)?;
    slot.to_answer(missed.alloc)
}

// The entry that is kept of an answer, where one is.
fn entry_for(
    missed: &Missed<'_>,
    taken: &[Mark],
    answer: &Answer,
) -> Result<Option<Entry>, NoMemory>
    ensures { IfOk result (λ entry. entry ≡ entry_for missed.now.plan.now missed.now.query.now
        missed.now.moment answer.now (inners_in taken.now)) }
{
    let Some(lived) = class_of(missed.plan, answer) else {
        return Ok(None);
    };
    let inner = inners_in(missed.alloc, taken)?;
    if !is_light(answer, inner.as_slice()) {
        return Ok(None);
    }
    Ok(Some(Entry {
        class: lived.class,
        born: missed.moment,
        life: lived.life,
        answer: answer.copy(missed.alloc)?,
        origin: missed.query.copy(missed.alloc)?,
        inner,
    }))
}

// The inner marks among these.
fn inners_in(alloc: Global, marks: &[Mark]) -> Result<InnerMarks, NoMemory>
    ensures { IfOk result (λ inners. inners ≡ inners_in marks.now) }
{
    let mut inners = InnerMarks::new(alloc);
    let mut rest = marks;
    while let Some((mark, behind)) = rest.split_first() {
        push_inner(alloc, mark, &mut inners)?;
        rest = behind;
    }
    Ok(inners)
}

// A mark's, where it has one.
fn push_inner(alloc: Global, mark: &Mark, inners: &mut InnerMarks) -> Result<(), NoMemory>
    ensures { OnOk result (inners.new ≡ inners.old ++ inners_in (mark.now ∷ [])) }
{
    match mark {
        Mark::Inner(inner) => {
            inners.push(inner.copy(alloc)?)?;
            Ok(())
        }
        _ => Ok(()),
    }
}
