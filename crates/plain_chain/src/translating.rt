//! What `dns64` makes of what the rest means, once or twice.

ghost use Rattle.std.specs.Prelude.{◌≡◌, ◌<◌, ◌^◌, false, true, IfOk, IfSome};
ghost use Rattle.chain_meaning.specs.Translating.{bound_of, combined_in, pointed_in};
ghost use Rattle.chain_trail.specs.Trail.{second_by, traced, translated_by};
ghost use Rattle.chain_trail.specs.Trails.{Behind, Trails};
ghost use Rattle.dns64_plugin.specs.{translates};
ghost use Rattle.outside.specs.Meanings.{Done};
ghost use Rattle.plain_chain.specs.Steps.{plain_rest, plain_run};
ghost use Rattle.chain_trail.specs.declared.reached.StepName.{StepName};

use crate::asking::Asking;
use crate::evaluating::decide_run;
use crate::reaching::{reach, rest_of};
use crate::rulings::Rulings;
use chain_meaning::Decision;
use chain_trail::{StepName, Trail};
use dns_data::{NoMemory, Query, RecordRoom, Slot};
use dns64_plugin::{Dns64Plan, a_query, needs_second, ptr_answer, ttl};
use outside::Mark;
use plain_marks::Meant;
use std::alloc::Global;

/// What a chain means behind its steps that note.
pub(crate) fn translate<'a, R: Rulings>(
    asking: Asking<'_>,
    rulings: &mut R,
    names: &[StepName],
    marks: &'a [Mark],
    trail: &mut Trail,
) -> Result<Meant<'a, Decision>, NoMemory>
    requires { R.directives rulings.old ≡ asking.chain.now.extras }
    ensures trails { IfOk result (Trails
        (traced (plain_rest (R.said rulings.old) asking.entry.chain.now) names.now
        asking.entry.query.now) marks.now trail.old trail.new) }
    ensures stays { R.said rulings.new ≡ R.said rulings.old }
    ensures set { R.directives rulings.new ≡ R.directives rulings.old }
{
    let Some(plan) = &asking.chain.dns64 else {
        let middle = asking.chain.middle.as_slice();
        return decide_run(asking, rulings, middle, names, marks, trail);
    };
    reach(asking.alloc, names, "pass", trail)?;
    if plan.translates(asking.query) {
        return decide_twice(asking, rulings, plan, rest_of(names), marks, trail);
    }
    decide_pointed(asking, rulings, plan, rest_of(names), marks, trail)
}

// For another query than for addresses of IPv6: the rest runs for the name of an address of IPv4,
// or as it is. The names are those behind this step.
fn decide_pointed<'a, R: Rulings>(
    asking: Asking<'_>,
    rulings: &mut R,
    plan: &Dns64Plan,
    names: &[StepName],
    marks: &'a [Mark],
    trail: &mut Trail,
) -> Result<Meant<'a, Decision>, NoMemory>
    requires once { translates plan.now asking.query.now ≡ false }
    requires set { R.directives rulings.old ≡ asking.chain.now.extras }
    ensures trails { (n : StepName) → IfOk result (Trails
        (translated_by n (traced
        (plain_run (R.said rulings.old) asking.entry.chain.now.middle asking.entry.chain.now)
        names.now) plan.now asking.entry.query.now) marks.now trail.old trail.new) }
    ensures stays { R.said rulings.new ≡ R.said rulings.old }
    ensures set { R.directives rulings.new ≡ R.directives rulings.old }
{
    let middle = asking.chain.middle.as_slice();
    let mut other = Query::blank(asking.alloc);
    if !plan.ptr_query(asking.alloc, asking.query, &mut other)? {
        return decide_run(asking, rulings, middle, names, marks, trail);
    }
    let inner = Asking {
        alloc: asking.alloc,
        chain: asking.chain,
        query: &other,
    };
    let meant = decide_run(inner, rulings, middle, names, marks, trail)?;
    pointed(asking.alloc, asking.query, &other, meant)
}

// The rest decides, and where that doesn't stand decides again for addresses of IPv4. The names are
// those behind this step.
fn decide_twice<'a, R: Rulings>(
    asking: Asking<'_>,
    rulings: &mut R,
    plan: &Dns64Plan,
    names: &[StepName],
    marks: &'a [Mark],
    trail: &mut Trail,
) -> Result<Meant<'a, Decision>, NoMemory>
    requires both { translates plan.now asking.query.now ≡ true }
    requires set { R.directives rulings.old ≡ asking.chain.now.extras }
    ensures trails { (n : StepName) → IfOk result (Trails
        (translated_by n (traced
        (plain_run (R.said rulings.old) asking.entry.chain.now.middle asking.entry.chain.now)
        names.now) plan.now asking.entry.query.now) marks.now trail.old trail.new) }
    ensures stays { R.said rulings.new ≡ R.said rulings.old }
    ensures set { R.directives rulings.new ≡ R.directives rulings.old }
{
    let middle = asking.chain.middle.as_slice();
    match decide_run(asking, rulings, middle, names, marks, trail)? {
        Meant::Done(first, left) => {
            let translated = Translated { asking, plan };
            decide_again(&translated, rulings, first, names, left, trail)
        }
        Meant::More => Ok(Meant::More),
        Meant::Off(left) => Ok(Meant::Off(left)),
    }
}

// A query for addresses of IPv6.
#[derive(Clone, Copy)]
struct Translated<'a> {
    asking: Asking<'a>,
    plan: &'a Dns64Plan,
}

// A first decision stands, or the rest decides again.
fn decide_again<'a, R: Rulings>(
    translated: &Translated<'_>,
    rulings: &mut R,
    first: Decision,
    names: &[StepName],
    marks: &'a [Mark],
    trail: &mut Trail,
) -> Result<Meant<'a, Decision>, NoMemory>
    requires { R.directives rulings.old ≡ translated.now.asking.chain.now.extras }
    ensures trails { (n : StepName) → IfOk result (Trails
        (second_by n (traced
        (plain_run (R.said rulings.old) translated.now.asking.chain.now.middle
        translated.now.asking.chain.now) names.now) translated.now.plan.now
        translated.now.asking.query.now first (bound_of first)) marks.now trail.old trail.new) }
    ensures stays { R.said rulings.new ≡ R.said rulings.old }
    ensures set { R.directives rulings.new ≡ R.directives rulings.old }
{
    let asking = translated.asking;
    let Some(bound) = bound_behind(&first) else {
        return Ok(Meant::Done(first, marks));
    };
    let mut other = Query::blank(asking.alloc);
    a_query(asking.query, &mut other)?;
    let inner = Asking {
        alloc: asking.alloc,
        chain: asking.chain,
        query: &other,
    };
    let middle = asking.chain.middle.as_slice();
    let second = decide_run(inner, rulings, middle, names, marks, trail)?;
    combined(asking.alloc, translated.plan, bound, second)
}

// What the first decision bounds TTLs by, where the rest decides again.
fn bound_behind(decision: &Decision) -> Option<u32>
    ensures value { result ≡ bound_of decision.now }
    ensures small { IfSome result (λ bound. bound < 2 ^ 31) }
{
    match decision {
        Decision::Reply(answer) => {
            needs_second(
                answer.rcode,
                answer.answer.as_slice(),
                answer.authority.as_slice(),
            )
        }
        Decision::Code(_, _) => Some(ttl::DEFAULT),
        Decision::Drop => None,
    }
}

// What is made of what the rest means again: its decision, as the client gets it.
fn combined<'a>(
    alloc: Global,
    plan: &Dns64Plan,
    bound: u32,
    meant: Meant<'a, Decision>,
) -> Result<Meant<'a, Decision>, NoMemory>
    requires { bound < 2 ^ 31 }
    ensures { IfOk result
        (Behind meant.entry (λ v left. Done (combined_in plan.now bound v) left)) }
{
    match meant {
        Meant::Done(decision, left) => {
            Ok(Meant::Done(combined_decision(alloc, plan, bound, decision)?, left))
        }
        Meant::More => Ok(Meant::More),
        Meant::Off(left) => Ok(Meant::Off(left)),
    }
}

// The second decision as the client gets it.
fn combined_decision(
    alloc: Global,
    plan: &Dns64Plan,
    bound: u32,
    decision: Decision,
) -> Result<Decision, NoMemory>
    requires { bound < 2 ^ 31 }
    ensures { IfOk result (λ other. other ≡ combined_in plan.now bound decision) }
{
    match decision {
        Decision::Reply(answer) => {
            let mut slot = Slot::new(alloc);
            slot.fill(alloc, &answer)?;
            plan.combine(alloc, bound, &mut slot, &mut RecordRoom::new(alloc))?;
            Ok(Decision::Reply(slot.to_answer(alloc)?))
        }
        Decision::Code(code, cause) => Ok(Decision::Code(code, cause)),
        Decision::Drop => Ok(Decision::Drop),
    }
}

// What is made of what the rest means for the name of an address of IPv4.
fn pointed<'a>(
    alloc: Global,
    query: &Query,
    inner: &Query,
    meant: Meant<'a, Decision>,
) -> Result<Meant<'a, Decision>, NoMemory>
    ensures { IfOk result
        (Behind meant.entry (λ v left. Done (pointed_in query.now inner.now v) left)) }
{
    match meant {
        Meant::Done(decision, left) => {
            Ok(Meant::Done(pointed_decision(alloc, query, inner, decision)?, left))
        }
        Meant::More => Ok(Meant::More),
        Meant::Off(left) => Ok(Meant::Off(left)),
    }
}

// The decision for the name of an address of IPv4, as the client gets it.
fn pointed_decision(
    alloc: Global,
    query: &Query,
    inner: &Query,
    decision: Decision,
) -> Result<Decision, NoMemory>
    ensures { IfOk result (λ other. other ≡ pointed_in query.now inner.now decision) }
{
    match decision {
        Decision::Reply(answer) => {
            let mut slot = Slot::new(alloc);
            slot.fill(alloc, &answer)?;
            ptr_answer(alloc, query, inner, &mut slot, &mut RecordRoom::new(alloc))?;
            Ok(Decision::Reply(slot.to_answer(alloc)?))
        }
        Decision::Code(code, cause) => Ok(Decision::Code(code, cause)),
        Decision::Drop => Ok(Decision::Drop),
    }
}
