ghost use Rattle.std.specs.Prelude.{◌≡◌, IfOk};
ghost use Rattle.chain_meaning.specs.Mean.{reply_restored, restored_in};
ghost use Rattle.chain_trail.specs.Trails.{Behind};

use chain_meaning::Decision;
use dns_data::{NoMemory, Slot};
use plain_marks::Meant;
use rewrite_plugin::{Changed, RewritePlan, RewriteRoom, restore};
use std::alloc::Global;

/// What is made of what the rest means: its decision, restored.
pub(crate) fn restored<'a>(
    alloc: Global,
    rules: &[RewritePlan],
    changed: &Changed,
    room: &mut RewriteRoom,
    meant: Meant<'a, Decision>,
) -> Result<Meant<'a, Decision>, NoMemory>
    ensures { IfOk result
        (Behind meant.entry (reply_restored rules.now changed.now)) }
{
    match meant {
        Meant::Done(decision, left) => {
            let restored = restored_decision(alloc, rules, changed, room, decision)?;
            Ok(Meant::Done(restored, left))
        }
        Meant::More => Ok(Meant::More),
        Meant::Off(left) => Ok(Meant::Off(left)),
    }
}

// A decision, restored.
fn restored_decision(
    alloc: Global,
    rules: &[RewritePlan],
    changed: &Changed,
    room: &mut RewriteRoom,
    decision: Decision,
) -> Result<Decision, NoMemory>
    ensures { IfOk result
        (λ other. other ≡ restored_in rules.now changed.now decision) }
{
    match decision {
        Decision::Reply(answer) => {
            let mut slot = Slot::new(alloc);
            slot.fill(alloc, &answer)?;
            restore(alloc, rules, changed, room, &mut slot)?;
            Ok(Decision::Reply(slot.to_answer(alloc)?))
        }
        Decision::Code(code, cause) => Ok(Decision::Code(code, cause)),
        Decision::Drop => Ok(Decision::Drop),
    }
}
