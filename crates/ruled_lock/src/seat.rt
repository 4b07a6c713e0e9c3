//! A seat at a lock.
ghost use Rattle.ruled_lock.specs.Calls.{Rests, InOrder};

use crate::object::Object;
use crate::rule::{Kept, View};
use atomic_table::Seat;

/// What a thread calls by. Contracts see what it knows, `view_of`.
#[derive(Drop)]
pub struct SeatOf<O, K, R> {
    pub(crate) seat: Seat<Option<Kept<O, K, R>>, View<O, K, R>>,
    /// How many calls the lock had when the seat last knew: a first guess, which no clause needs.
    pub(crate) guess: u64,
    ghost rests: { Rests seat.me },
    ghost ordered: { InOrder seat.me.0 },
}

pub type LockSeat<O> = SeatOf<O, <O as Object>::Call, <O as Object>::Reply>;

/// There was no memory for a lock.
#[derive(Debug, Drop)]
pub struct NoMemory;
