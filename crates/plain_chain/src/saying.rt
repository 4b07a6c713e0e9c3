//! What a plugin says of a query, as a decision. None: it goes on.

ghost use Rattle.std.specs.Prelude.{◌≡◌, List, IfOk};
ghost use Rattle.outside.specs.Meanings.{Done};
ghost use Rattle.outside.specs.declared.mark.Mark.{Mark};
ghost use Rattle.chain_build.specs.Compiled.{back_answerer, front_answerer};
ghost use Rattle.chain_build.specs.Pools.{AsksNothing};
ghost use Rattle.chain_build.specs.Walking.{decision_of};
ghost use Rattle.chain_meaning.specs.Mean.{answer_of};
ghost use Rattle.chain_meaning.specs.Steps.{verdict_decides};
ghost use Rattle.chain_trail.specs.Says.{decided_say};
ghost use Rattle.extra_stock.specs.{said_at};
ghost use Rattle.plain_marks.specs.{Means};

use crate::rulings::Rulings;
use chain_build::{BackAnswerer, Ended, FrontAnswerer, PluginRoom, back_answer, front_answer};
use chain_meaning::Decision;
use chain_trail::{acl_say, decision_say};
use dns_data::{NoMemory, Query, Slot};
use outside::Mark;
use plain_marks::{Meant, forwarded};
use plugin_api::{Cause, Verdict};
use std::alloc::Global;

/// Of a plugin in front of a cache.
pub(crate) fn front_says(
    alloc: Global,
    plugin: &FrontAnswerer,
    query: &Query,
) -> Result<Option<Decision>, NoMemory>
    ensures { IfOk result (λ said. (left : List Mark)
        → answer_of (front_answerer plugin.now) query.now left ≡ Done said left) }
{
    let mut slot = Slot::new(alloc);
    match front_answer(alloc, plugin, query, &mut slot)? {
        Some(ended) => Ok(Some(decided(alloc, ended, &mut slot)?)),
        None => Ok(None),
    }
}

/// What is said of one that decided so.
pub(crate) fn front_say(plugin: &FrontAnswerer, decision: &Decision) -> &'static str
    ensures { result.now ≡ decided_say (front_answerer plugin.now) decision.now }
{
    match plugin {
        FrontAnswerer::Acl(_) => acl_say(decision),
        FrontAnswerer::Any => decision_say(decision),
    }
}

/// Of the extra at a place.
pub(crate) fn extra_says<R: Rulings>(
    alloc: Global,
    rulings: &mut R,
    at: usize,
    query: &Query,
) -> Result<Option<Decision>, NoMemory>
    ensures says { IfOk result (λ decides. decides
        ≡ verdict_decides (said_at (R.said rulings.old) (R.directives rulings.old) at query.now)) }
    ensures stays { R.said rulings.new ≡ R.said rulings.old }
    ensures set { R.directives rulings.new ≡ R.directives rulings.old }
{
    match rulings.ask_at(alloc, at, query)? {
        Verdict::Pass => Ok(None),
        Verdict::Reply(answer) => Ok(Some(Decision::Reply(answer))),
        Verdict::Drop => Ok(Some(Decision::Drop)),
        Verdict::Code(code) => Ok(Some(Decision::Code(code, Cause::ExtraCode))),
    }
}

/// What a plugin behind a cache means by a list of marks.
pub(crate) fn back_means<'a>(
    alloc: Global,
    plugin: &BackAnswerer,
    query: &Query,
    marks: &'a [Mark],
) -> Result<Meant<'a, Option<Decision>>, NoMemory>
    ensures { IfOk result
        (Means (answer_of (back_answerer plugin.now) query.now) marks.now) }
{
    if let BackAnswerer::Forward(plans) = plugin {
        return forwarded(alloc, plans.as_slice(), query, marks);
    }
    Ok(Meant::Done(back_says(alloc, plugin, query)?, marks))
}

// Of one that asks the outside nothing. Its searches are made in room of its own.
fn back_says(
    alloc: Global,
    plugin: &BackAnswerer,
    query: &Query,
) -> Result<Option<Decision>, NoMemory>
    requires { AsksNothing plugin.now }
    ensures { IfOk result (λ said. (left : List Mark)
        → answer_of (back_answerer plugin.now) query.now left ≡ Done said left) }
{
    let mut room = PluginRoom::new(alloc);
    match back_answer(alloc, plugin, query, &mut room)? {
        Some(ended) => Ok(Some(decided(alloc, ended, &mut room.slot)?)),
        None => Ok(None),
    }
}

// The decision of a plugin that ended the chain so, with this answer in the slot. The records of a
// tail are copied there.
fn decided(alloc: Global, ended: Ended<'_>, slot: &mut Slot) -> Result<Decision, NoMemory>
    ensures { IfOk result (λ decision. decision ≡ decision_of ended.entry slot.old) }
{
    match ended {
        Ended::Reply => Ok(Decision::Reply(slot.to_answer(alloc)?)),
        Ended::Lent(tail) => {
            tail.copy_into(alloc, slot)?;
            Ok(Decision::Reply(slot.to_answer(alloc)?))
        }
        Ended::Code(code, cause) => Ok(Decision::Code(code, cause)),
        Ended::Drop => Ok(Decision::Drop),
    }
}
