//! One datagram is served and explained.
ghost use Rattle.std.specs.Prelude.{◌≡◌, IfOk};
ghost use Rattle.chain_build.specs.{chain_identity, chain_log, server_of, serving};
ghost use Rattle.outside.specs.{IsFreshSide};
ghost use Rattle.chain_build.specs.Holding.{IsHeld};
ghost use Rattle.chain_build.specs.{terms_in};
ghost use Rattle.explain_chain.specs.Explaining.{IsExplained, TellsExplaining};
ghost use Rattle.explain_chain.specs.Finding.{AsHeld};

use crate::asking::front_lines;
use crate::lines::push_served;
use chain_build::{Chain, Held, Plans, Room, serve};
use chain_meaning::Served;
use dns_data::{NoMemory, Texts};
use outside::{Datagram, Mark, Side};
use plugin_api::{Extra, Rulebook};
use recorded_side::Recording;
use std::alloc::Global;
use std::sync::Wait;

/// What was sent for a datagram, and the lines that explain it.
#[derive(Debug, Drop)]
pub struct Explained {
    pub lines: Texts,
    pub served: Served,
}

/// Serves one datagram by a chain over a side that was just opened, and explains how it was
/// decided. The side comes back.
pub fn explain<R: Wait, B: Rulebook, E: Extra, S: Side>(
    rt: &R,
    alloc: Global,
    chain: &mut Chain<B, E>,
    datagram: &Datagram,
    side: S,
    room: &mut Room,
) -> (Result<Explained, NoMemory>, S)
    requires fresh { IsFreshSide (S.state side) }
    ensures tells { TellsExplaining (server_of chain.old) datagram.now result.0
        (serving (S.state side) (chain_log chain.old))
        (serving (S.state result.1) (chain_log chain.new)) }
    ensures same { chain_identity chain.new ≡ chain_identity chain.old }
{
    let mut recording = Recording::new(alloc, side);
    let served = serve(rt, alloc, chain, datagram, &mut recording, room);
    let (side, kept) = recording.into_parts();
    let Ok(marks) = kept else {
        return (Err(NoMemory), side);
    };
    let (plans, held) = (&chain.plans, &mut chain.held);
    let explained = explain_by(alloc, plans, held, datagram, marks.as_slice(), served);
    (explained, side)
}

// How a datagram was decided that was served so, with these marks.
fn explain_by<B: Rulebook, E: Extra>(
    alloc: Global,
    plans: &Plans<B>,
    held: &mut Held<B, E>,
    datagram: &Datagram,
    marks: &[Mark],
    served: Served,
) -> Result<Explained, NoMemory>
    requires holds { IsHeld plans.now held.old }
    ensures served { IfOk result (λ e. e.served ≡ served) }
    ensures lines { IfOk result (λ e. IsExplained plans.now.bundle
        (terms_in B.taken B.said plans.now) datagram.now marks.now served e.lines) }
    ensures same { AsHeld held.old held.new }
{
    let mut lines = front_lines(alloc, plans, held, datagram, marks)?;
    push_served(alloc, &mut lines, &served)?;
    Ok(Explained { lines, served })
}
