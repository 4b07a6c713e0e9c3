ghost use Rattle.std.specs.Prelude.{◌≡◌, ◌≤◌, ◌<◌, IfOk};
ghost use Rattle.upstream_health.specs.Pools.{drew_event, noted_event};
ghost use Rattle.upstream_health.specs.Seats.{Calls, IsNewView, IsSeatOf, IsWhole, Meets, Splits};

use crate::Drawn;
use crate::state::{Health, PoolAsk, PoolTold};
use ruled_lock::{LockSeat, Locked, NoMemory};
use std::alloc::Global;
use std::sync::Wait;

/// What workers share of the upstreams of a directive.
pub struct Pool {
    lock: Locked<Health>,
}

impl Drop for Pool {
    fn drop(self) {
        let Pool { lock } = self;
        drop(lock);
    }
}

/// What a worker calls a pool by.
#[derive(Drop)]
pub struct PoolSeat {
    seat: LockSeat<Health>,
}

impl Pool {
    /// A pool of so many upstreams, of which `most` failed tries in a row leave one out (0: none
    /// is), with the seat that has all parts.
    pub fn new(
        alloc: Global,
        size: u32,
        most: u32,
        parts: u64,
    ) -> Result<(Pool, PoolSeat), NoMemory>
        requires size { (1 ≤ size) × (size ≤ 15) }
        requires parts { 0 < parts }
        ensures own { IfOk result (λ r. r.1.seat.seat.table_id ≡ r.0.lock.table.shared.table_id) }
        ensures fresh { IfOk result (λ r. IsSeatOf most size r.1.seat.seat.me.0) }
        ensures new { IfOk result (λ r. IsNewView parts r.1.seat.seat.me.0) }
    {
        match Health::new(alloc, size, most) {
            Ok(health) => match Locked::new(alloc, health, parts) {
                Ok((lock, seat)) => Ok((Pool { lock }, PoolSeat { seat })),
                Err(error) => Err(error),
            },
            Err(error) => Err(error),
        }
    }

    /// The number of a query, and which upstreams are down.
    pub fn draw<R: Wait>(&self, rt: &R, seat: &mut PoolSeat) -> Drawn
        requires own { seat.old.seat.seat.table_id ≡ self.now.lock.table.shared.table_id }
        ensures own { seat.new.seat.seat.table_id ≡ seat.old.seat.seat.table_id }
        ensures calls { Calls seat.old.seat.seat.me.0 (drew_event result.number result.down)
            seat.new.seat.seat.me.0 }
    {
        match self.lock.call(rt, &mut seat.seat, PoolAsk::Draw) {
            PoolTold::Drew(drawn) => drawn,
            PoolTold::Noted => unreachable!(),
        }
    }

    /// A try of an upstream has ended.
    pub fn report<R: Wait>(&self, rt: &R, seat: &mut PoolSeat, upstream: u32, agreed: bool)
        requires own { seat.old.seat.seat.table_id ≡ self.now.lock.table.shared.table_id }
        ensures own { seat.new.seat.seat.table_id ≡ seat.old.seat.seat.table_id }
        ensures calls { Calls seat.old.seat.seat.me.0 (noted_event upstream agreed)
            seat.new.seat.seat.me.0 }
    {
        match self
            .lock
            .call(rt, &mut seat.seat, PoolAsk::Report(upstream, agreed))
        {
            PoolTold::Noted => (),
            PoolTold::Drew(_) => unreachable!(),
        }
    }

    /// The new seat has one part, and has seen as much.
    pub fn split(&self, seat: &mut PoolSeat) -> PoolSeat
        requires own { seat.old.seat.seat.table_id ≡ self.now.lock.table.shared.table_id }
        requires parts { 1 < seat.old.seat.seat.me.0.parts }
        ensures own { (seat.new.seat.seat.table_id ≡ seat.old.seat.seat.table_id)
            × (result.seat.seat.table_id ≡ seat.old.seat.seat.table_id) }
        ensures splits { Splits seat.old.seat.seat.me.0 seat.new.seat.seat.me.0
            result.seat.seat.me.0 }
    {
        PoolSeat {
            seat: self.lock.split(&mut seat.seat),
        }
    }

    /// The seat takes the other's parts and calls, and what it has seen.
    pub fn meet(&self, seat: &mut PoolSeat, other: PoolSeat)
        requires own { (seat.old.seat.seat.table_id ≡ self.now.lock.table.shared.table_id)
            × (other.seat.seat.table_id ≡ self.now.lock.table.shared.table_id) }
        ensures own { seat.new.seat.seat.table_id ≡ seat.old.seat.seat.table_id }
        ensures meets { Meets seat.old.seat.seat.me.0 other.seat.seat.me.0
            seat.new.seat.seat.me.0 }
    {
        let PoolSeat { seat: other } = other;
        self.lock.meet(&mut seat.seat, other);
    }

    /// The whole history of a pool whose seats have all met is legal, and it is the calls of these
    /// seats, put together: each stands in it once, in the order of its seat.
    pub fn whole(&self, seat: &mut PoolSeat)
        requires own { seat.old.seat.seat.table_id ≡ self.now.lock.table.shared.table_id }
        requires all { seat.old.seat.seat.me.0.parts ≡ seat.old.seat.seat.me.0.all }
        ensures own { seat.new.seat.seat.table_id ≡ seat.old.seat.seat.table_id }
        ensures same { seat.new.seat.seat.me.0 ≡ seat.old.seat.seat.me.0 }
        ensures whole { IsWhole seat.old.seat.seat.me.0 }
    {
        self.lock.whole(&mut seat.seat);
    }
}
