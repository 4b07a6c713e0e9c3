//! What `forward` means by a list of marks.

ghost use Rattle.std.specs.Prelude.{◌≡◌, ◌<◌, IfOk, IfSome};
ghost use Rattle.std.specs.List.{filter};
ghost use Rattle.outside.specs.Meanings.{onward};
ghost use Rattle.chain_meaning.specs.Mean.{forward_answered};
ghost use Rattle.forward_plugin.specs.Forward.{draw_means, forward_means, is_up, plan_means};
ghost use Rattle.forward_plugin.specs.Forward.{start_means, tries, turn_means};
ghost use Rattle.forward_plugin.specs.{by_of, is_pooled, plan_turn};
ghost use Rattle.plain_marks.specs.Meant.{IfDone, Means};

use crate::asking::{Passed, tried};
use crate::meant::Meant;
use crate::taking::{take_drawn, take_word};
use chain_meaning::Decision;
use dns_data::{NoMemory, Query};
use forward_plugin::{ForwardPlan, Numbered, is_up};
use outside::Mark;
use plugin_api::{Cause, Code};
use std::alloc::Global;
use upstream_health::Drawn;

/// What the directives `forward` of a block decide. None: the query goes on.
pub fn forwarded<'a>(
    alloc: Global,
    plans: &[ForwardPlan],
    query: &Query,
    marks: &'a [Mark],
) -> Result<Meant<'a, Option<Decision>>, NoMemory>
    ensures { IfOk result
        (Means (λ some. onward (forward_means plans.now query.now some) forward_answered)
        marks.now) }
{
    let Some((plan, others)) = plans.split_first() else {
        return Ok(Meant::Done(None, marks));
    };
    if !plan.is_for(&query.name) {
        return forwarded(alloc, others, query, marks);
    }
    plan_means(alloc, plan, query, marks)
}

// A directive: a draw where it has a pool, and its turn.
fn plan_means<'a>(
    alloc: Global,
    plan: &ForwardPlan,
    query: &Query,
    marks: &'a [Mark],
) -> Result<Meant<'a, Option<Decision>>, NoMemory>
    ensures { IfOk result
        (Means (λ some. onward (plan_means plan.now query.now some) forward_answered) marks.now) }
{
    match draw_means(plan.is_pooled(), marks) {
        Meant::Done(drawn, left) => {
            let passed = Passed {
                alloc,
                query,
                by: plan.by(query.by),
                is_pooled: plan.is_pooled(),
            };
            turn_means(&passed, plan, drawn, left)
        }
        Meant::More => Ok(Meant::More),
        Meant::Off(left) => Ok(Meant::Off(left)),
    }
}

// A draw, where there is a pool.
fn draw_means<'a>(is_pooled: bool, marks: &'a [Mark]) -> Meant<'a, Drawn>
    ensures { Means (draw_means is_pooled) marks.now result }
{
    if is_pooled {
        return take_drawn(marks);
    }
    Meant::Done(Drawn { number: 0, down: 0 }, marks)
}

// A turn: with which upstream it begins, and the tries.
fn turn_means<'a>(
    passed: &Passed<'_>,
    plan: &ForwardPlan,
    drawn: Drawn,
    marks: &'a [Mark],
) -> Result<Meant<'a, Option<Decision>>, NoMemory>
    requires pooled { passed.now.is_pooled ≡ is_pooled plan.now }
    requires by { passed.now.by ≡ by_of plan.now passed.now.query.now.by }
    ensures { IfOk result (Means (λ some. onward (turn_means passed.now.by passed.now.query.now
        passed.now.is_pooled plan.now.upstreams (plan_turn plan.now drawn) some) forward_answered)
        marks.now) }
{
    let turn = plan.turn(drawn);
    match start_means(turn.start, plan.count(), marks) {
        Meant::Done(start, left) => tries(passed, plan.from_on(start), turn.mask, left),
        Meant::More => Ok(Meant::More),
        Meant::Off(left) => Ok(Meant::Off(left)),
    }
}

// With which upstream a query begins.
fn start_means<'a>(start: Option<usize>, count: usize, marks: &'a [Mark]) -> Meant<'a, usize>
    requires some { 0 < count }
    requires inside { IfSome start (λ s. s < count) }
    ensures means { Means (start_means start count) marks.now result }
    ensures inside { IfDone result (λ s. s < count) }
{
    match start {
        Some(start) => Meant::Done(start, marks),
        None => match take_word(marks) {
            Meant::Done(word, left) => Meant::Done((word % count as u64) as usize, left),
            Meant::More => Meant::More,
            Meant::Off(left) => Meant::Off(left),
        },
    }
}

// Each of these upstreams once, but those that are left out, until one agrees.
fn tries<'a>(
    passed: &Passed<'_>,
    order: &[Numbered],
    mask: u16,
    marks: &'a [Mark],
) -> Result<Meant<'a, Option<Decision>>, NoMemory>
    ensures { IfOk result (Means (λ some. onward (tries passed.now.by passed.now.query.now
        passed.now.is_pooled (filter (is_up mask) order.now) some) forward_answered) marks.now) }
{
    let Some((first, others)) = order.split_first() else {
        let decision = Decision::Code(Code::ServFail, Cause::AllUpstreams);
        return Ok(Meant::Done(Some(decision), marks));
    };
    if !is_up(mask, first) {
        return tries(passed, others, mask, marks);
    }
    match tried(passed, first, marks)? {
        Meant::Done(answer, left) => match answer {
            Some(answer) => Ok(Meant::Done(Some(Decision::Reply(answer)), left)),
            None => tries(passed, others, mask, left),
        },
        Meant::More => Ok(Meant::More),
        Meant::Off(left) => Ok(Meant::Off(left)),
    }
}
