//! The lines of what a datagram asks.
ghost use Rattle.std.specs.Prelude.{◌≡◌, IfOk};
ghost use Rattle.chain_build.specs.{terms_in};
ghost use Rattle.chain_build.specs.Holding.{IsHeld};
ghost use Rattle.chain_meaning.specs.Steps.{steps_of};
ghost use Rattle.explain_chain.specs.Explaining.{ExplainsFront, asked_lines, query_lines};
ghost use Rattle.explain_chain.specs.Finding.{AsHeld};

use crate::finding::find_block;
use crate::lines::{block_line, push_reached};
use crate::tracing::trace;
use chain_build::{BlockChain, Held, Plans, is_known_version, query_of};
use chain_trail::picked_line;
use dns_data::{Block, NoMemory, Query, Texts, class};
use dns_wire::{Asked, QueryFault, read_asked};
use outside::{Datagram, Mark};
use plain_chain::Asking;
use plugin_api::{Extra, Rulebook};
use std::alloc::Global;

/// The lines of a datagram, up to that of what was sent. What is no query has none.
pub(crate) fn front_lines<B: Rulebook, E: Extra>(
    alloc: Global,
    plans: &Plans<B>,
    held: &mut Held<B, E>,
    datagram: &Datagram,
    marks: &[Mark],
) -> Result<Texts, NoMemory>
    requires holds { IsHeld plans.now held.old }
    ensures lines { IfOk result (ExplainsFront plans.now.bundle
        (terms_in B.taken B.said plans.now) datagram.now marks.now) }
    ensures same { AsHeld held.old held.new }
{
    plans.tell();
    match read_asked(alloc, datagram.bytes.as_slice()) {
        Ok(asked) => asked_lines(alloc, plans, held, datagram, asked, marks),
        Err(fault) => match fault {
            QueryFault::NoMemory => Err(NoMemory),
            _ => Ok(Texts::new(alloc)),
        },
    }
}

// The lines of what a datagram asks; where its version or its class decides, there are none.
fn asked_lines<B: Rulebook, E: Extra>(
    alloc: Global,
    plans: &Plans<B>,
    held: &mut Held<B, E>,
    datagram: &Datagram,
    asked: Asked,
    marks: &[Mark],
) -> Result<Texts, NoMemory>
    requires holds { IsHeld plans.now held.old }
    ensures lines { IfOk result (λ lines. lines
        ≡ asked_lines (steps_of B.said plans.now.bundle.files) plans.now.blocks datagram.now asked
        marks.now) }
    ensures same { AsHeld held.old held.new }
{
    let (opt, class) = (asked.opt, asked.question.class);
    let query = query_of(datagram, asked);
    if is_known_version(opt) && class == class::IN {
        return query_lines(alloc, plans, held, &query, marks);
    }
    Ok(Texts::new(alloc))
}

// The lines of a query: by which key its block was picked, and those of the steps.
fn query_lines<B: Rulebook, E: Extra>(
    alloc: Global,
    plans: &Plans<B>,
    held: &mut Held<B, E>,
    query: &Query,
    marks: &[Mark],
) -> Result<Texts, NoMemory>
    requires holds { IsHeld plans.now held.old }
    ensures lines { IfOk result (λ lines. lines
        ≡ query_lines (steps_of B.said plans.now.bundle.files) plans.now.blocks query.now
        marks.now) }
    ensures same { AsHeld held.old held.new }
{
    let mut lines = Texts::new(alloc);
    let picked = picked_line(&plans.blocks, query.local, &query.name);
    lines.push(block_line(alloc, picked)?)?;
    let Some((number, block, chain)) = find_block(plans, query) else {
        return Ok(lines);
    };
    let asking = Asking {
        alloc,
        chain,
        query,
    };
    let trail = trace(asking, block, &mut held.seats[number], marks)?;
    push_reached(alloc, &mut lines, trail.as_slice())?;
    Ok(lines)
}
