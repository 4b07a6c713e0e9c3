ghost use Rattle.std.specs.Prelude.{◌≡◌, IfOk};
ghost use Rattle.extra_stock.specs.Turns.{in_turn, said_at};

use crate::seat::Seat;
use dns_data::{NoMemory, Query};
use plugin_api::{Extra, Rulebook, Verdict};
use std::alloc::Global;
use std::marker::Model;

/// The extras of a block's chain, one for each of its directives, which contracts see as these
/// directives.
#[derive(Drop)]
pub struct Seats<B: Rulebook, E: Extra> {
    pub(crate) seats: Vec<Seat<B, E>>,
}

impl<B: Rulebook, E: Extra> Model for Seats<B, E> {
    ghost use Rattle.std.specs.Prelude.{List};
    ghost use Rattle.dns_data.specs.declared.directive.Directive.{Directive};

    ghost Value = { List Directive };

    ghost view = { λ s. s.seats.items };
}

impl<B: Rulebook, E: Extra> Seats<B, E> {
    /// What they say of a query, each in turn: the first verdict that doesn't pass.
    pub fn ask(&mut self, alloc: Global, query: &Query) -> Result<Verdict, NoMemory>
        ensures says { IfOk result (λ verdict. verdict ≡ in_turn B.said self.old query.now) }
        ensures stays { self.new ≡ self.old }
    {
        for seat in self.seats.as_mut_slice() {
            match seat.decide(alloc, query)? {
                Verdict::Pass => {}
                Verdict::Reply(answer) => return Ok(Verdict::Reply(answer)),
                Verdict::Drop => return Ok(Verdict::Drop),
                Verdict::Code(code) => return Ok(Verdict::Code(code)),
            }
        }
        Ok(Verdict::Pass)
    }

    /// What the one at a place says of a query, which passes where there is none.
    pub fn ask_at(&mut self, alloc: Global, at: usize, query: &Query) -> Result<Verdict, NoMemory>
        ensures says { IfOk result (λ verdict. verdict ≡ said_at B.said self.old at query.now) }
        ensures stays { self.new ≡ self.old }
    {
        match self.seats.get_mut(at) {
            Some(seat) => seat.decide(alloc, query),
            None => Ok(Verdict::Pass),
        }
    }
}
