//! The publication of generations.
ghost use Rattle.std.specs.Prelude.{◌≡◌, ℕ, ◌+◌, ◌<◌, [], ◌∷◌, None, Some, true, length};
ghost use Rattle.pin_table.specs.Known.{place};
ghost use Rattle.pin_table.specs.Steps.{plan_in, count_of, named_plan, filled_seat};
ghost use Rattle.pin_table.specs.Tags.{AreFilled, AreNew};
ghost use Rattle.pin_table.specs.Standing.{IsStanding, StandsBehind};
ghost use Rattle.pin_table.specs.Handles.{id_of, plan_of, IsPublisherOf, SamePublisher, seen_of};
ghost use Rattle.pin_table.specs.Handles.{IsToldOf};
ghost use Rattle.pin_table.specs.Publishing.{IsFreeSlot, CanFill, IsReady, fill_to, IsPublished};
ghost use Rattle.pin_table.specs.declared.views.View.TheVariants.{OfPublisher};

use crate::lots::{Stage, replace_all};
use crate::passes::Told;
use crate::plays::{Fills, Names, Publishes, Tells};
use crate::publisher::{Published, Publisher};
use crate::table::{FILLED, FRONT, PinTable, SERIAL, SLOT_UNIT};
use crate::tagged::Tagged;
use crate::views::View;
use atomic_table::Seat;
use pin_core::{MOST_SERIALS, SLOTS, WORKERS};

impl<C: Tagged + Drop> PinTable<C> {
    fn name(&self, seat: &mut Seat<Option<C>, View<C>>, slot: usize, serial: u64)
        requires own { seat.old.table_id ≡ id_of self.now }
        requires at { seat.old.me ≡ (OfPublisher (plan_in seat.old.me.0), []) }
        requires free { IsFreeSlot (plan_in seat.old.me.0) slot }
        requires hand { (plan_in seat.old.me.0).hand ≡ None }
        ensures own { (seat.new.table_id ≡ seat.old.table_id) × (seat.new.id ≡ seat.old.id) }
        ensures named { let plan = plan_in seat.old.me.0 in
            seat.new.me ≡ (OfPublisher (named_plan plan slot serial), (place slot 0, None) ∷ []) }
    {
        self.table
            .shared
            .store::<Names>(seat, slot + SERIAL, serial);
    }

    fn fill(&self, seat: &mut Seat<Option<C>, View<C>>, slot: usize, worker: usize, chain: C)
        requires own { seat.old.table_id ≡ id_of self.now }
        requires at { let plan = plan_in seat.old.me.0 in
            seat.old.me ≡ (OfPublisher plan, (place slot worker, None) ∷ []) }
        requires can { CanFill (plan_in seat.old.me.0) slot }
        requires worker { (worker ≡ length (plan_in seat.old.me.0).next) × (worker < WORKERS) }
        ensures own { (seat.new.table_id ≡ seat.old.table_id) × (seat.new.id ≡ seat.old.id) }
        ensures filled { seat.new.me ≡ filled_seat (plan_in seat.old.me.0) slot (Some chain) }
    {
        let cell = WORKERS * slot + worker;
        let home = self.table.shared.exchange(seat, cell, Some(chain));
        let None = home else { unreachable!() };
        self.table.shared.fetch_add::<Fills>(seat, slot + FILLED, 1);
    }

    fn fill_all(&self, seat: &mut Seat<Option<C>, View<C>>, slot: usize, chains: Vec<C>)
        requires own { seat.old.table_id ≡ id_of self.now }
        requires at { let plan = plan_in seat.old.me.0 in
            seat.old.me ≡ (OfPublisher plan, (place slot 0, None) ∷ []) }
        requires ready { IsReady (plan_in seat.old.me.0) slot chains.items }
        requires first { let plan = plan_in seat.old.me.0 in
            fill_to plan slot chains.items 0 ≡ plan }
        ensures own { (seat.new.table_id ≡ seat.old.table_id) × (seat.new.id ≡ seat.old.id) }
        ensures filled { let plan = plan_in seat.old.me.0 in
            seat.new.me ≡ (OfPublisher (fill_to plan slot chains.items plan.workers), []) }
    {
        let mut worker = 0;
        for chain in chains {
            self.fill(seat, slot, worker, chain);
            worker += 1;
        }
    }
}

impl<C: Tagged + Drop> PinTable<C> {
    /// Publishes a generation in a free slot, a chain for each worker.
    pub fn publish(&self, publisher: &mut Publisher<C>, slot: u32, chains: Vec<C>) -> Published<C>
        requires own { IsPublisherOf self.now publisher.old }
        requires free { IsFreeSlot (plan_of publisher.old) slot }
        requires chains { length chains.items ≡ (plan_of publisher.old).workers }
        requires tagged { let serial = count_of (plan_of publisher.old) in
            AreNew C.identity C.log serial 0 chains.items }
        requires filled { AreFilled C.identity C.log 0 (plan_of publisher.old).past.filled }
        ensures own { SamePublisher publisher.old publisher.new }
        ensures filled { AreFilled C.identity C.log 0 (plan_of publisher.new).past.filled }
        ensures published { let before = plan_of publisher.old in
            IsPublished before slot chains.items result (plan_of publisher.new) }
        ensures stands { IsStanding C.identity (plan_of publisher.old)
            → IsStanding C.identity (plan_of publisher.new) }
        ensures sum { (f : C → ℕ) → IsStanding C.identity (plan_of publisher.old)
            → StandsBehind f (plan_of publisher.old) chains.items result (plan_of publisher.new) }
    {
        if publisher.published >= MOST_SERIALS {
            return Published::SerialsSpent(chains);
        }
        let slot = slot as usize;
        let serial = publisher.published;
        self.name(&mut publisher.seat, slot, serial);
        self.fill_all(&mut publisher.seat, slot, chains);
        let front = self
            .table
            .shared
            .swap::<Publishes>(&mut publisher.seat, FRONT, slot as u64 * SLOT_UNIT);
        replace_all(&mut publisher.lots, front % SLOT_UNIT);
        publisher.lots[slot].stage = Stage::Current;
        publisher.current = slot;
        publisher.published += 1;
        Published::Ok(serial)
    }
}

impl<C: Tagged> PinTable<C> {
    /// How many generations were published. The serial of the last is one less.
    pub fn published(&self, publisher: &Publisher<C>) -> u64
        requires { IsPublisherOf self.now publisher.now }
        ensures { result ≡ count_of (plan_of publisher.now) }
    {
        publisher.published
    }

    /// What a pass is to see: how many generations were published.
    pub fn told(&self, publisher: &mut Publisher<C>) -> Told<C>
        requires own { IsPublisherOf self.now publisher.old }
        ensures own { SamePublisher publisher.old publisher.new }
        ensures same { plan_of publisher.new ≡ plan_of publisher.old }
        ensures told { IsToldOf self.now result
            × (seen_of result ≡ count_of (plan_of publisher.old)) }
    {
        let seat = self.table.shared.split_seat::<Tells>(&mut publisher.seat);
        Told {
            seat,
            seen: publisher.published,
        }
    }
}
