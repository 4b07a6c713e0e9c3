//! What the steps of a block's chain say that a query reaches.
ghost use Rattle.std.specs.Prelude.{◌≡◌, IfOk};
ghost use Rattle.chain_build.specs.Plans.{steps_in};
ghost use Rattle.chain_trail.specs.Names.{step_names};
ghost use Rattle.plain_chain.specs.Traced.{chain_traced};

use chain_build::BlockChain;
use chain_trail::{Trail, step_names};
use dns_data::{Block, NoMemory, Query};
use extra_stock::Seats;
use outside::Mark;
use plain_chain::{Asking, trace_chain};
use plain_marks::Meant;
use plugin_api::{Extra, Rulebook};
use std::alloc::Global;

/// The steps that a query reaches in the chain of a block, by the marks that the chain takes.
pub(crate) fn trace<B: Rulebook, E: Extra>(
    asking: Asking<'_>,
    block: &Block,
    seats: &mut Seats<B, E>,
    marks: &[Mark],
) -> Result<Trail, NoMemory>
    requires seated { seats.old ≡ asking.chain.now.extras }
    ensures lines { IfOk result (λ trail. trail
        ≡ (chain_traced (steps_in B.said asking.entry.chain.now)
        (step_names block.now.directives) asking.entry.query.now marks.now).lines) }
    ensures seated { seats.new ≡ seats.old }
{
    let names = step_names(asking.alloc, block.directives.as_slice())?;
    let mut trail = Trail::new(asking.alloc);
    match trace_chain(asking, seats, names.as_slice(), marks, &mut trail)? {
        Meant::Done(_, _) | Meant::More => Ok(trail),
        // No chain takes marks that may not stand there.
        Meant::Off(_) => Err(NoMemory),
    }
}
