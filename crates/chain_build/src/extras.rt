ghost use Rattle.std.specs.Prelude.{◌≡◌};
ghost use Rattle.dns_data.specs.Message.{no_answer};
ghost use Rattle.chain_meaning.specs.MeanLaws.{extras_say};
ghost use Rattle.chain_build.specs.Walking.{Said};

use crate::ended::Ended;
use dns_data::{NoMemory, Query, Slot};
use extra_stock::Seats;
use plugin_api::{Cause, Extra, Rulebook, Verdict};
use std::alloc::Global;

/// Plugins that a program brings besides those of this server. They stand where the front of a
/// chain ends, before a cache, and answer or go on. One value has all of them, or none.
pub trait Extras {
    ghost use Rattle.std.specs.Prelude.{List, Option};
    ghost use Rattle.dns_data.specs.declared.directive.Directive.{Directive};
    ghost use Rattle.dns_data.specs.declared.query.Query.{Query};
    ghost use Rattle.chain_meaning.specs.declared.decision.Decision.{Decision};

    /// The directives that they are set to.
    ghost directives: { Self → List Directive };

    /// What they say of a query. None: they go on.
    ghost says: { Self → Query → Option Decision };

    /// Leaves the answer of a reply in the slot, which is clear. A tail that it lends would have to
    /// live for ever, so none is lent. None: they go on.
    fn answer(
        &mut self,
        alloc: Global,
        query: &Query,
        slot: &mut Slot,
    ) -> Result<Option<Ended<'static>>, NoMemory>
        requires clear { slot.old ≡ no_answer }
        ensures said { Said (says self.old) query.now slot.old slot.new result }
        ensures stays { says self.new ≡ says self.old }
        ensures set { directives self.new ≡ directives self.old };
}

/// No plugins besides those of this server.
#[derive(Debug, Drop)]
pub struct NoExtras;

impl Extras for NoExtras {
    ghost use Rattle.std.specs.Prelude.{[]};
    ghost use Rattle.chain_meaning.specs.Steps.{none_said};

    ghost directives = { λ extras. [] };

    ghost says = { λ extras. none_said };

    #[inline(always)]
    fn answer(
        &mut self,
        _alloc: Global,
        _query: &Query,
        _slot: &mut Slot,
    ) -> Result<Option<Ended<'static>>, NoMemory> {
        Ok(None)
    }
}

impl<B: Rulebook, E: Extra> Extras for Seats<B, E> {
    ghost use Rattle.chain_meaning.specs.MeanLaws.{extras_say};

    ghost directives = { λ seats. seats };

    ghost says = { λ seats. extras_say B.said seats };

    fn answer(
        &mut self,
        alloc: Global,
        query: &Query,
        slot: &mut Slot,
    ) -> Result<Option<Ended<'static>>, NoMemory> {
        ask_seats(alloc, self, query, slot)
    }
}

// What the extras of a block say, with the answer of a reply in the slot.
#[tactic(auto, using(crate::proofs::Walks::turns))]
fn ask_seats<B: Rulebook, E: Extra>(
    alloc: Global,
    seats: &mut Seats<B, E>,
    query: &Query,
    slot: &mut Slot,
) -> Result<Option<Ended<'static>>, NoMemory>
    requires clear { slot.old ≡ no_answer }
    ensures said { Said (extras_say B.said seats.old) query.now slot.old slot.new result }
    ensures stays { seats.new ≡ seats.old }
{
    match seats.ask(alloc, query)? {
        Verdict::Pass => Ok(None),
        Verdict::Reply(answer) => {
            slot.fill(alloc, &answer)?;
            Ok(Some(Ended::Reply))
        }
        Verdict::Drop => Ok(Some(Ended::Drop)),
        Verdict::Code(code) => Ok(Some(Ended::Code(code, Cause::ExtraCode))),
    }
}
