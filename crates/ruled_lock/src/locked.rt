//! The lock, and its calls.
ghost use Rattle.std.specs.Prelude.{◌≡◌, ℕ, ◌+◌, ◌-◌, ◌<◌, ◌^◌, ◌++◌, ◌∷◌, []};
ghost use Rattle.std.specs.Prelude.{IfOk, Some, length, map};
ghost use Rattle.ruled_lock.specs.Places.{once_below};
ghost use Rattle.ruled_lock.specs.Held.{newcomer, owned};
ghost use Rattle.ruled_lock.specs.Shuffles.{MergesTo};
ghost use Rattle.ruled_lock.specs.Steps.{CanBe, OwnsApart, left_view, right_view};
ghost use Rattle.ruled_lock.specs.Calls.{Rests, InOrder, HasTaken, HasCalls, IsCall, IsLegal};
ghost use Rattle.ruled_lock.specs.Calls.{IsMeeting, own_calls, met_calls};
ghost use Rattle.ruled_lock.specs.Seats.{IsAt, StaysAt, view_of};

use crate::object::Object;
use crate::plays::{Cuts, Looks, Meets, Releases, Takes};
use crate::rule::{Begun, Kept, Law, View};
use crate::seat::{LockSeat, NoMemory, SeatOf};
use atomic_table::{Seat, Table};
use std::alloc::Global;
use std::snapshot::Snapshot;
use std::sync::Wait;
use std::thread;

/// After so many calls a further one waits for good.
const MOST: u64 = (1 << 63) - 1;

/// A sequential object that one thread at a time calls. Contracts see which lock it is, by its
/// table's id.
pub struct Locked<O: Object> {
    pub(crate) table: Table<
        Option<Kept<O, O::Call, O::Reply>>,
        View<O, O::Call, O::Reply>,
        Begun<O>,
        Law<O>,
        Global,
    >,
    ghost wide: { (table.shared.table_id.words ≡ 1) × (table.shared.table_id.slots ≡ 1) },
}

impl<O: Object + Drop> Drop for Locked<O> {
    fn drop(self) {
        let Self { table } = self;
        drop(table);
    }
}

impl<O: Object + Drop> Locked<O> {
    /// A lock round an object, and a seat with all its parts.
    pub fn new(alloc: Global, object: O, parts: u64) -> Result<(Locked<O>, LockSeat<O>), NoMemory>
        requires { 0 < parts }
        ensures own { IfOk result (λ r. IsAt r.0.table.shared.table_id r.1) }
        ensures seat { IfOk result (λ r. view_of r.1 ≡ newcomer object parts) }
    {
        let begun = Begun {
            object: Snapshot::of(&object),
            parts,
        };
        let Ok(mut slots) = Vec::with_capacity(alloc, 1) else {
            drop(object);
            return Err(NoMemory);
        };
        slots.push_reserved(Some(Kept {
            object,
            call: Snapshot::of(&None),
            reply: Snapshot::of(&None),
        }));
        match Table::new(alloc, &[0], slots, &begun) {
            Ok((table, seat)) => Ok((Locked { table }, SeatOf { seat, guess: 0 })),
            Err(_) => Err(NoMemory),
        }
    }
}

impl<O: Object> Locked<O> {
    // Takes the object, and says how many calls were made. A try that fails lets other threads go
    // first, so that where workers outnumber processors the one with the object can end.
    fn take<R: Wait>(
        &self,
        rt: &R,
        seat: &mut Seat<Option<Kept<O, O::Call, O::Reply>>, View<O, O::Call, O::Reply>>,
        guess: u64,
    ) -> u64
        requires { (seat.old.table_id ≡ self.now.table.shared.table_id) × Rests seat.old.me }
        ensures own { (seat.new.table_id ≡ seat.old.table_id) × (seat.new.id ≡ seat.old.id) }
        ensures taken { HasTaken O.step O.allowed seat.old.me.0 result seat.new.me
            × (result < 2 ^ 63 - 1) }
    {
        let mut calls = guess;
        for _ in rt.forever() {
            if calls < MOST {
                let shared = &self.table.shared;
                let even = 2 * calls;
                let found = shared.compare_exchange::<Takes<O>>(seat, 0, even, even + 1);
                if found == even {
                    return calls;
                }
                calls = found / 2 + found % 2;
                thread::yield_now();
            }
        }
        unreachable!()
    }

    /// Calls the object. The call stands once in its history, after all that the seat had seen. May
    /// wait for other seats' calls.
    pub fn call<R: Wait>(&self, rt: &R, seat: &mut LockSeat<O>, call: O::Call) -> O::Reply
        requires own { IsAt self.now.table.shared.table_id seat.old }
        requires allowed { (x : O) → CanBe O.step O.allowed (view_of seat.old) x
            → O.allowed x call }
        ensures own { StaysAt seat.old seat.new }
        ensures history { IsCall O.step O.allowed (view_of seat.old) call result
            (view_of seat.new) }
        ensures calls { HasCalls (view_of seat.new)
            (own_calls (view_of seat.old) ++ Some (call, result) ∷ [])
            (met_calls (view_of seat.old)) }
    {
        let guess = seat.guess;
        let calls = self.take(rt, &mut seat.seat, guess);
        seat.guess = calls + 1;
        let Some(kept) = self.table.shared.exchange(&mut seat.seat, 0, None) else {
            unreachable!()
        };
        let Kept {
            mut object,
            call: _,
            reply: _,
        } = kept;
        let call = Some(call);
        let asked = Snapshot::of(&call);
        let Some(call) = call else { unreachable!() };
        let reply = Some(object.apply(call));
        let told = Snapshot::of(&reply);
        let back = Kept {
            object,
            call: asked,
            reply: told,
        };
        let left = self.table.shared.exchange(&mut seat.seat, 0, Some(back));
        let None = left else { unreachable!() };
        self.table
            .shared
            .store::<Releases>(&mut seat.seat, 0, 2 * calls + 2);
        let Some(reply) = reply else { unreachable!() };
        reply
    }

    /// A new seat gets one of the parts, and has seen as much.
    pub fn split(&self, seat: &mut LockSeat<O>) -> LockSeat<O>
        requires own { IsAt self.now.table.shared.table_id seat.old }
        requires parts { 1 < (view_of seat.old).parts }
        ensures own { StaysAt seat.old seat.new }
        ensures at { IsAt seat.old.seat.table_id result }
        ensures left { view_of seat.new ≡ left_view (view_of seat.old) }
        ensures right { view_of result ≡ right_view (view_of seat.old) }
    {
        let right = self.table.shared.split_seat::<Cuts>(&mut seat.seat);
        SeatOf {
            seat: right,
            guess: seat.guess,
        }
    }

    /// The seat takes over the other's parts and places, and what it has seen.
    pub fn meet(&self, seat: &mut LockSeat<O>, other: LockSeat<O>)
        requires own { IsAt self.now.table.shared.table_id seat.old
            × IsAt self.now.table.shared.table_id other }
        ensures own { StaysAt seat.old seat.new }
        ensures apart { OwnsApart (view_of seat.new) }
        ensures met { IsMeeting (view_of seat.old) (view_of other) (view_of seat.new) }
        ensures calls { HasCalls (view_of seat.new) (own_calls (view_of seat.old))
            (met_calls (view_of seat.old)
            ++ own_calls (view_of other) ∷ met_calls (view_of other)) }
    {
        let SeatOf { seat: other, guess } = other;
        if seat.guess < guess {
            seat.guess = guess;
        }
        self.table.shared.join_seat::<Meets>(&mut seat.seat, other);
        self.table.shared.load::<Looks<O>>(&mut seat.seat, 0);
    }

    /// What a seat with all parts knows: its history is the lock's, and each call of it stands in
    /// one of its lists, once.
    pub fn whole(&self, seat: &mut LockSeat<O>)
        requires own { IsAt self.now.table.shared.table_id seat.old }
        requires all { (view_of seat.old).parts ≡ (view_of seat.old).all }
        ensures own { StaysAt seat.old seat.new }
        ensures same { view_of seat.new ≡ view_of seat.old }
        ensures legal { IsLegal O.step O.allowed (view_of seat.old) }
        ensures once { (p : ℕ) → owned p (view_of seat.old)
            ≡ once_below p (length (view_of seat.old).seen) }
        ensures ordered { InOrder (view_of seat.old) }
        ensures merged { MergesTo (own_calls (view_of seat.old) ∷ met_calls (view_of seat.old))
            (map Some (view_of seat.old).seen) }
    {
        self.table.shared.load::<Looks<O>>(&mut seat.seat, 0);
    }
}
