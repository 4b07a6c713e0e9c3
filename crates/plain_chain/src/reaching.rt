//! Lines of the steps that were reached.

ghost use Rattle.std.specs.Prelude.{◌≡◌, ◌++◌, OnOk};
ghost use Rattle.chain_trail.specs.Trail.{end_name, head_name, reached, tail_names};

use chain_trail::{Reached, StepName, Trail};
use dns_data::{Copies, NoMemory, Text};
use std::alloc::Global;

/// The step with the first of these names was reached, and said this.
pub(crate) fn reach(
    alloc: Global,
    names: &[StepName],
    say: &str,
    trail: &mut Trail,
) -> Result<(), NoMemory>
    ensures { OnOk result (trail.new ≡ trail.old ++ reached (head_name names.now) say.now) }
{
    let Some((name, _)) = names.split_first() else {
        return reach_end(alloc, say, trail);
    };
    trail.push(Reached {
        line: name.line,
        name: name.name.copy(alloc)?,
        say: Text::from_str(alloc, say)?,
    })
}

/// The end of the chain was reached, and said this.
pub(crate) fn reach_end(alloc: Global, say: &str, trail: &mut Trail) -> Result<(), NoMemory>
    ensures { OnOk result (trail.new ≡ trail.old ++ reached end_name say.now) }
{
    trail.push(Reached {
        line: 0,
        name: Text::from_str(alloc, "end of chain")?,
        say: Text::from_str(alloc, say)?,
    })
}

/// The names behind the first.
pub(crate) fn rest_of(names: &[StepName]) -> &[StepName]
    ensures { result.now ≡ tail_names names.now }
{
    match names.split_first() {
        Some((_, rest)) => rest,
        None => names,
    }
}
