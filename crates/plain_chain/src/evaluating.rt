//! What the steps of a block's chain mean, one after another, with a line for each that is reached:
//! a plugin that answers decides, and a step round the rest takes or changes what stands behind
//! what the rest meant.

ghost use Rattle.std.specs.Prelude.{◌≡◌, IfOk, drop};
ghost use Rattle.chain_trail.specs.Trail.{traced};
ghost use Rattle.chain_trail.specs.Trails.{Trails};
ghost use Rattle.plain_chain.specs.Steps.{plain_others, plain_run, plain_steps};

use crate::asking::Asking;
use crate::caching::decide_inner;
use crate::noting::{behind_errors, behind_log};
use crate::reaching::{reach, rest_of};
use crate::rulings::Rulings;
use crate::saying::{extra_says, front_say, front_says};
use crate::translating::translate;
use chain_build::{FrontAnswerer, FrontStep};
use chain_meaning::Decision;
use chain_trail::{StepName, Trail, decision_say};
use dns_data::NoMemory;
use outside::Mark;
use plain_marks::Meant;

/// What these first steps mean, and behind them what stands behind those that note. The names are
/// those of the steps.
pub(crate) fn evaluate<'a, R: Rulings>(
    asking: Asking<'_>,
    rulings: &mut R,
    front: &[FrontStep],
    names: &[StepName],
    marks: &'a [Mark],
    trail: &mut Trail,
) -> Result<Meant<'a, Decision>, NoMemory>
    requires { R.directives rulings.old ≡ asking.chain.now.extras }
    ensures trails { IfOk result (Trails
        (traced (plain_steps (R.said rulings.old) front.now asking.entry.chain.now) names.now
        asking.entry.query.now) marks.now trail.old trail.new) }
    ensures stays { R.said rulings.new ≡ R.said rulings.old }
    ensures set { R.directives rulings.new ≡ R.directives rulings.old }
{
    let Some((step, others)) = front.split_first() else {
        return translate(asking, rulings, names, marks, trail);
    };
    reach(asking.alloc, names, "pass", trail)?;
    let meant = evaluate(asking, rulings, others, rest_of(names), marks, trail)?;
    match step {
        FrontStep::Errors => behind_errors(asking.alloc, asking.query, meant),
        FrontStep::Log(plan) => behind_log(asking.alloc, plan, asking.query, meant),
    }
}

/// What these plugins mean, and where they go on extras and what stands behind those.
pub(crate) fn decide_run<'a, R: Rulings>(
    asking: Asking<'_>,
    rulings: &mut R,
    middle: &[FrontAnswerer],
    names: &[StepName],
    marks: &'a [Mark],
    trail: &mut Trail,
) -> Result<Meant<'a, Decision>, NoMemory>
    requires { R.directives rulings.old ≡ asking.chain.now.extras }
    ensures trails { IfOk result (Trails
        (traced (plain_run (R.said rulings.old) middle.now asking.entry.chain.now) names.now
        asking.entry.query.now) marks.now trail.old trail.new) }
    ensures stays { R.said rulings.new ≡ R.said rulings.old }
    ensures set { R.directives rulings.new ≡ R.directives rulings.old }
{
    let Some((plugin, others)) = middle.split_first() else {
        return decide_others(asking, rulings, 0, names, marks, trail);
    };
    match front_says(asking.alloc, plugin, asking.query)? {
        Some(decision) => {
            reach(asking.alloc, names, front_say(plugin, &decision), trail)?;
            Ok(Meant::Done(decision, marks))
        }
        None => {
            reach(asking.alloc, names, "pass", trail)?;
            decide_run(asking, rulings, others, rest_of(names), marks, trail)
        }
    }
}

// What the extras from this place on mean, and where they go on a cache and what stands behind it.
fn decide_others<'a, R: Rulings>(
    asking: Asking<'_>,
    rulings: &mut R,
    at: usize,
    names: &[StepName],
    marks: &'a [Mark],
    trail: &mut Trail,
) -> Result<Meant<'a, Decision>, NoMemory>
    requires { R.directives rulings.old ≡ asking.chain.now.extras }
    ensures trails { IfOk result (Trails
        (traced (plain_others (R.said rulings.old) (drop at asking.entry.chain.now.extras)
        asking.entry.chain.now) names.now asking.entry.query.now) marks.now trail.old trail.new) }
    ensures stays { R.said rulings.new ≡ R.said rulings.old }
    ensures set { R.directives rulings.new ≡ R.directives rulings.old }
{
    if asking.chain.extras.len() <= at {
        return decide_inner(asking, names, marks, trail);
    }
    match extra_says(asking.alloc, rulings, at, asking.query)? {
        Some(decision) => {
            reach(asking.alloc, names, decision_say(&decision), trail)?;
            Ok(Meant::Done(decision, marks))
        }
        None => {
            reach(asking.alloc, names, "pass", trail)?;
            decide_others(asking, rulings, at + 1, rest_of(names), marks, trail)
        }
    }
}
