//! What the chain of one block decides of a query by a list of marks, with the lines of how.

ghost use Rattle.std.specs.Prelude.{◌≡◌, IfOk};
ghost use Rattle.plugin_api.specs.{Sayings};
ghost use Rattle.chain_build.specs.Plans.{steps_in};
ghost use Rattle.chain_trail.specs.Trails.{Trails};
ghost use Rattle.plain_chain.specs.Reading.{has_none};
ghost use Rattle.plain_chain.specs.Traced.{chain_traced};

use crate::asking::Asking;
use crate::evaluating::evaluate;
use crate::meant::bare_reply;
use crate::rulings::Rulings;
use chain_build::BlockChain;
use chain_meaning::Decision;
use chain_trail::{StepName, Trail};
use dns_data::{NoMemory, rcode};
use outside::Mark;
use plain_marks::Meant;

/// What a chain decides, where its extras say what these rulings do. A line for each step that is
/// reached is added to the trail; the names are those of the chain's steps.
pub fn trace_chain<'a, R: Rulings>(
    asking: Asking<'_>,
    rulings: &mut R,
    names: &[StepName],
    marks: &'a [Mark],
    trail: &mut Trail,
) -> Result<Meant<'a, Decision>, NoMemory>
    requires { R.directives rulings.old ≡ asking.chain.now.extras }
    ensures trails { IfOk result (Trails
        (chain_traced (steps_in (R.said rulings.old) asking.entry.chain.now) names.now
        asking.entry.query.now) marks.now trail.old trail.new) }
    ensures stays { R.said rulings.new ≡ R.said rulings.old }
    ensures set { R.directives rulings.new ≡ R.directives rulings.old }
{
    if has_none(asking.chain) {
        return Ok(Meant::Done(bare_reply(asking.alloc, rcode::REFUSED), marks));
    }
    evaluate(
        asking,
        rulings,
        asking.chain.front.as_slice(),
        names,
        marks,
        trail,
    )
}

// Whether there is no step.
fn has_none(chain: &BlockChain) -> bool
    ensures { (said : Sayings) → result ≡ has_none (steps_in said chain.now) }
{
    let front = chain.front.as_slice();
    if 0 < front.len() {
        return false;
    }
    if chain.dns64.is_some() {
        return false;
    }
    let middle = chain.middle.as_slice();
    if 0 < middle.len() {
        return false;
    }
    if 0 < chain.extras.len() {
        return false;
    }
    if chain.cache.is_some() {
        return false;
    }
    let rules = chain.rewrites.as_slice();
    if 0 < rules.len() {
        return false;
    }
    let back = chain.back.as_slice();
    if 0 < back.len() {
        return false;
    }
    true
}
