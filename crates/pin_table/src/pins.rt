//! A worker's calls.
ghost use Rattle.std.specs.Prelude.{◌≡◌, None, true};
ghost use Rattle.std.specs.Option.{is_some};
ghost use Rattle.pin_table.specs.Handles.{pass_of, IsPassOf, SamePass, IsToldOf, seen_of};
ghost use Rattle.pin_table.specs.Steps.{unpinned_pass, met_pass};
ghost use Rattle.pin_table.specs.Pinning.{IsPinned};
ghost use Rattle.pin_table.specs.Tags.{Follows, Keeps};

use crate::passes::{Pass, Pin, Told};
use crate::plays::{Learns, Meets, Pins, Unpins};
use crate::table::{ENDED, FRONT, PinTable, SERIAL, SLOT_UNIT};
use crate::tagged::Tagged;
use pin_core::{MOST_PINS, WORKERS};

impl<C> Pass<C> {
    /// How many generations it knows to be published: behind a pin one more than its serial.
    #[inline]
    pub fn seen(&self) -> u64
        ensures { result ≡ (pass_of self.now).seen }
    {
        self.seen
    }
}

impl<C: Tagged> PinTable<C> {
    /// Pins the current generation, and gives its serial and this worker's chain of it.
    pub fn pin(&self, pass: &mut Pass<C>) -> Pin<C>
        requires own { IsPassOf self.now pass.old }
        requires idle { (pass_of pass.old).held ≡ None }
        ensures own { SamePass pass.old pass.new }
        ensures pinned { IsPinned (pass_of pass.old) result (pass_of pass.new) }
    {
        if pass.pins >= MOST_PINS {
            return Pin::Spent;
        }
        let front = self
            .table
            .shared
            .fetch_add::<Pins>(&mut pass.seat, FRONT, 1);
        let slot = (front / SLOT_UNIT) as usize;
        let serial = self
            .table
            .shared
            .load::<Learns>(&mut pass.seat, slot + SERIAL);
        let cell = WORKERS * slot + pass.worker;
        let chain = match self.table.shared.exchange(&mut pass.seat, cell, None) {
            Some(chain) => chain,
            None => unreachable!(),
        };
        pass.slot = slot;
        pass.pins += 1;
        pass.seen = serial + 1;
        Pin::Pinned { serial, chain }
    }
}

impl<C: Tagged + Drop> PinTable<C> {
    /// Gives the chain home, and ends the pin.
    pub fn unpin(&self, pass: &mut Pass<C>, chain: C)
        requires own { IsPassOf self.now pass.old }
        requires held { is_some (pass_of pass.old).held ≡ true }
        requires follows { Follows C.identity C.log (pass_of pass.old).taken chain }
        requires kept { Keeps C.identity C.log (pass_of pass.old).turns }
        ensures own { SamePass pass.old pass.new }
        ensures unpinned { pass_of pass.new ≡ unpinned_pass (pass_of pass.old) (Some chain) }
        ensures kept { Keeps C.identity C.log (pass_of pass.new).turns }
    {
        let cell = WORKERS * pass.slot + pass.worker;
        let home = self
            .table
            .shared
            .exchange(&mut pass.seat, cell, Some(chain));
        let None = home else { unreachable!() };
        self.table
            .shared
            .fetch_add::<Unpins>(&mut pass.seat, pass.slot + ENDED, 1);
    }
}

impl<C: Tagged> PinTable<C> {
    /// The pass has then seen at least what was told.
    pub fn meet(&self, pass: &mut Pass<C>, told: Told<C>)
        requires own { IsPassOf self.now pass.old }
        requires told { IsToldOf self.now told }
        ensures own { SamePass pass.old pass.new }
        ensures met { pass_of pass.new ≡ met_pass (pass_of pass.old) (seen_of told) }
    {
        let Told { seat, seen } = told;
        self.table.shared.join_seat::<Meets>(&mut pass.seat, seat);
        if pass.seen < seen {
            pass.seen = seen;
        }
    }
}
