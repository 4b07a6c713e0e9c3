//! A cache of eight shards, and seats at it.
ghost use Rattle.std.specs.Prelude.{◌≡◌, ℕ, ◌<◌, ◌≤◌, [], ◌∷◌};
ghost use Rattle.std.specs.Prelude.{Some, slice_get, length, map, IfOk, MatchResult};
ghost use Rattle.std.specs.Arc.{arc_value};
ghost use Rattle.std.specs.NonZero.{non_zero_usize_get};
ghost use Rattle.outside.specs.Keys.{shard_of};
ghost use Rattle.ruled_lock.specs.Steps.{left_view, right_view};
ghost use Rattle.cache_shards.specs.Answers.{Room, capacities_of};
ghost use Rattle.cache_shards.specs.Planned.{planned_capacities};
ghost use Rattle.cache_shards.specs.Marks.{marks_of};
ghost use Rattle.cache_shards.specs.Seats.{Adds, AddsAt, AreNew, CutsAt};
ghost use Rattle.cache_shards.specs.Seats.{HasPartsAt, HaveAll, HaveParts, IsSeat, IsSeatOf};
ghost use Rattle.cache_shards.specs.Seats.{IsHitOf, IsNewView, IsWhole, MeetAll, Meets};
ghost use Rattle.cache_shards.specs.Seats.{MeetsAt, WholeAt, view_of, views_of};
ghost use Rattle.cache_shards.specs.Calls.{DoesNothingOr, IsJustCall, looked_marks};
ghost use Rattle.cache_shards.specs.Calls.{put_marks};

use crate::calls::{Kept, Looked, ShardCall, ShardReply};
use crate::judge::Judge;
use crate::shard::{Shard, Stores};
use crate::store::Store;
use cache_rules::CachePlan;
use dns_data::{Copies, NoMemory};
use outside::{Entry, Key};
use ruled_lock::{LockSeat, Locked};
use seeded_hash::Seed;
use std::alloc::Global;
use std::marker::Model;
use std::num::NonZeroUsize;
use std::snapshot::Snapshot;
use std::sync::{Arc, Wait};

/// Eight shards, each under a lock.
#[derive(Drop)]
pub struct Cache<J: Judge> {
    judge: Snapshot<J>,
    success: NonZeroUsize,
    denial: NonZeroUsize,
    locks: Vec<Locked<Shard<J>>>,
}

impl<J: Judge> Model for Cache<J> {
    ghost use Rattle.std.specs.Prelude.{◌≡◌, ◌<◌, map, length};
    ghost use Rattle.std.specs.NonZero.{non_zero_usize_get};
    ghost use Rattle.cache_shards.specs.Answers.{capacities_of};
    ghost use Rattle.cache_shards.specs.Seats.{CacheData};

    ghost Value = { CacheData J };

    ghost view = { λ c. record {
      judge = c.judge.value;
      capacities = capacities_of (non_zero_usize_get c.success) (non_zero_usize_get c.denial);
      ids = map (λ l. l.table.shared.table_id) c.locks.items;
    } };

    ghost invariant = { λ c. (length c.locks.items ≡ 8) × (0 < non_zero_usize_get c.success)
        × (0 < non_zero_usize_get c.denial) };
}

/// What a worker calls a cache by: a seat at each lock.
#[derive(Drop)]
pub struct CacheSeat<J: Judge> {
    pub(crate) seats: Vec<LockSeat<Shard<J>>>,
}

impl<J: Judge + Drop> Cache<J> {
    /// An empty cache with the capacities of a plan, and a seat with all parts. The judge stands in
    /// proofs alone from then on. Hashes begin with the seed, which clients can't know.
    pub fn new(
        alloc: Global,
        plan: &CachePlan,
        judge: J,
        parts: u64,
        seed: Seed,
    ) -> Result<(Cache<J>, CacheSeat<J>), NoMemory>
        requires { 0 < parts }
        ensures own { IfOk result (λ r. IsSeatOf r.0 r.1.seats.items) }
        ensures cache { IfOk result (λ r. (r.0.judge ≡ judge)
            × (r.0.capacities ≡ planned_capacities plan.now)) }
        ensures new { IfOk result (λ r. AreNew parts (views_of r.1.seats.items)) }
    {
        let rules = plan.settings();
        let success = rules.success.shard_room();
        let denial = rules.denial.shard_room();
        Cache::with_room(alloc, success, denial, judge, parts, seed)
    }

    // Each store of each shard keeps so many keys.
    fn with_room(
        alloc: Global,
        success: NonZeroUsize,
        denial: NonZeroUsize,
        judge: J,
        parts: u64,
        seed: Seed,
    ) -> Result<(Cache<J>, CacheSeat<J>), NoMemory>
        requires { 0 < parts }
        ensures own { IfOk result (λ r. IsSeatOf r.0 r.1.seats.items) }
        ensures cache { IfOk result (λ r. (r.0.judge ≡ judge)
            × (r.0.capacities ≡ capacities_of (non_zero_usize_get success)
            (non_zero_usize_get denial))) }
        ensures new { IfOk result (λ r. AreNew parts (views_of r.1.seats.items)) }
    {
        let Ok(mut locks) = Vec::with_capacity(alloc, 8) else {
            return Err(NoMemory);
        };
        let Ok(mut seats) = Vec::with_capacity(alloc, 8) else {
            return Err(NoMemory);
        };
        let kept = Snapshot::of(&judge);
        let _ = success.get();
        let _ = denial.get();
        for at in 0..8usize {
            let Ok((lock, seat)) = open(alloc, success, denial, Snapshot::of(&judge), parts, seed)
            else {
                return Err(NoMemory);
            };
            locks.push_reserved(lock);
            seats.push_reserved(seat);
        }
        let cache = Cache {
            judge: kept,
            success,
            denial,
            locks,
        };
        Ok((cache, CacheSeat { seats }))
    }
}

// A shard that is empty, under a lock.
fn open<J: Judge>(
    alloc: Global,
    success: NonZeroUsize,
    denial: NonZeroUsize,
    judge: Snapshot<J>,
    parts: u64,
    seed: Seed,
) -> Result<(Locked<Shard<J>>, LockSeat<Shard<J>>), NoMemory>
    requires { 0 < parts }
    ensures own { IfOk result (λ r. IsSeat
        (capacities_of (non_zero_usize_get success) (non_zero_usize_get denial)) judge.value
        r.0.table.shared.table_id r.1) }
    ensures new { IfOk result (λ r. IsNewView parts (view_of r.1)) }
{
    let Ok(success) = Store::new(alloc, success, seed) else {
        return Err(NoMemory);
    };
    let Ok(denial) = Store::new(alloc, denial, seed) else {
        return Err(NoMemory);
    };
    let Ok(stores) = Box::new(alloc, Stores { success, denial }) else {
        return Err(NoMemory);
    };
    let shard = Shard { judge, stores };
    match Locked::new(alloc, shard, parts) {
        Ok(pair) => Ok(pair),
        Err(_) => Err(NoMemory),
    }
}

impl<J: Judge> Cache<J> {
    // One call of one shard.
    fn ask<R: Wait>(
        &self,
        rt: &R,
        at: usize,
        seat: &mut LockSeat<Shard<J>>,
        call: ShardCall,
    ) -> ShardReply
        requires at { at < 8 }
        requires own { (id : _) × (slice_get self.now.ids at ≡ Some id)
            × IsSeat self.now.capacities self.now.judge id seat.old }
        requires room { Room self.now.capacities }
        requires just { IsJustCall (J.just self.now.judge) call }
        ensures own { (id : _) × (slice_get self.now.ids at ≡ Some id)
            × IsSeat self.now.capacities self.now.judge id seat.new }
        ensures adds { Adds self.now.capacities (J.just self.now.judge) (view_of seat.old)
            (view_of seat.new) (marks_of (call, result)) }
    {
        self.locks[at].call(rt, seat, call)
    }

    // One call of the shard at its place.
    fn ask_at<R: Wait>(
        &self,
        rt: &R,
        at: usize,
        seat: &mut CacheSeat<J>,
        call: ShardCall,
    ) -> ShardReply
        requires at { at < 8 }
        requires own { IsSeatOf self.now seat.old.seats.items }
        requires just { IsJustCall (J.just self.now.judge) call }
        ensures own { IsSeatOf self.now seat.new.seats.items }
        ensures adds { AddsAt self.now.capacities (J.just self.now.judge) at
            (views_of seat.old.seats.items) (views_of seat.new.seats.items)
            (marks_of (call, result)) }
    {
        self.ask(rt, at, &mut seat.seats[at], call)
    }

    /// The entry of the last put of the key, where it was kept, is still kept and live.
    pub fn get<R: Wait>(
        &self,
        alloc: Global,
        rt: &R,
        seat: &mut CacheSeat<J>,
        key: &Key,
        now: u64,
    ) -> Looked
        requires own { IsSeatOf self.now seat.old.seats.items }
        ensures own { IsSeatOf self.now seat.new.seats.items }
        ensures adds { DoesNothingOr result (seat.new.seats.items ≡ seat.old.seats.items)
            (AddsAt self.now.capacities (J.just self.now.judge) (shard_of key.now)
            (views_of seat.old.seats.items) (views_of seat.new.seats.items)
            (looked_marks key.now now result)) }
        ensures hit { IsHitOf (J.just self.now.judge) (views_of seat.new.seats.items) key.now now
            result }
    {
        let Ok(copy) = key.copy(alloc) else {
            return Looked::NoMemory;
        };
        match self.ask_at(rt, key.shard(), seat, ShardCall::Get(copy, now)) {
            ShardReply::Hit(entry) => Looked::Hit(entry),
            ShardReply::Miss => Looked::Miss,
            ShardReply::Kept | ShardReply::NoMemory => Looked::NoMemory,
        }
    }

    /// The entry is kept under the key.
    pub fn put<R: Wait>(&self, rt: &R, seat: &mut CacheSeat<J>, key: Key, entry: Arc<Entry>) -> Kept
        requires own { IsSeatOf self.now seat.old.seats.items }
        requires just { J.just self.now.judge (arc_value entry) }
        ensures own { IsSeatOf self.now seat.new.seats.items }
        ensures adds { AddsAt self.now.capacities (J.just self.now.judge) (shard_of key)
            (views_of seat.old.seats.items) (views_of seat.new.seats.items)
            (put_marks key (arc_value entry) result) }
    {
        let at = key.shard();
        match self.ask_at(rt, at, seat, ShardCall::Put(key, entry)) {
            ShardReply::Kept => Kept::Kept,
            ShardReply::Hit(_) | ShardReply::Miss | ShardReply::NoMemory => Kept::NoMemory,
        }
    }

    // A seat at one shard is cut in two.
    fn split_at(&self, at: usize, seat: &mut CacheSeat<J>) -> LockSeat<Shard<J>>
        requires at { at < 8 }
        requires own { IsSeatOf self.now seat.old.seats.items }
        requires parts { HasPartsAt 2 at (views_of seat.old.seats.items) }
        ensures own { IsSeatOf self.now seat.new.seats.items }
        ensures cut { CutsAt at (views_of seat.old.seats.items) (views_of seat.new.seats.items)
            (view_of result) }
        ensures right { (id : _) × (slice_get self.now.ids at ≡ Some id)
            × IsSeat self.now.capacities self.now.judge id result }
    {
        self.split_one(at, &mut seat.seats[at])
    }

    fn split_one(&self, at: usize, seat: &mut LockSeat<Shard<J>>) -> LockSeat<Shard<J>>
        requires at { at < 8 }
        requires own { (id : _) × (slice_get self.now.ids at ≡ Some id)
            × IsSeat self.now.capacities self.now.judge id seat.old }
        requires parts { 1 < (view_of seat.old).parts }
        ensures own { (id : _) × (slice_get self.now.ids at ≡ Some id)
            × IsSeat self.now.capacities self.now.judge id seat.new
            × IsSeat self.now.capacities self.now.judge id result }
        ensures left { view_of seat.new ≡ left_view (view_of seat.old) }
        ensures right { view_of result ≡ right_view (view_of seat.old) }
    {
        self.locks[at].split(seat)
    }

    // A seat at one shard takes another's parts and places.
    fn meet_one(&self, at: usize, seat: &mut LockSeat<Shard<J>>, other: LockSeat<Shard<J>>)
        requires at { at < 8 }
        requires own { (id : _) × (slice_get self.now.ids at ≡ Some id)
            × IsSeat self.now.capacities self.now.judge id seat.old
            × IsSeat self.now.capacities self.now.judge id other }
        ensures own { (id : _) × (slice_get self.now.ids at ≡ Some id)
            × IsSeat self.now.capacities self.now.judge id seat.new }
        ensures meets { Meets (view_of seat.old) (view_of other) (view_of seat.new) }
    {
        self.locks[at].meet(seat, other)
    }

    // A seat with all parts of one shard knows its whole history.
    fn whole_one(&self, at: usize, seat: &mut LockSeat<Shard<J>>)
        requires at { at < 8 }
        requires own { (id : _) × (slice_get self.now.ids at ≡ Some id)
            × IsSeat self.now.capacities self.now.judge id seat.old }
        requires room { Room self.now.capacities }
        requires all { (view_of seat.old).parts ≡ (view_of seat.old).all }
        ensures own { (id : _) × (slice_get self.now.ids at ≡ Some id)
            × IsSeat self.now.capacities self.now.judge id seat.new }
        ensures same { view_of seat.new ≡ view_of seat.old }
        ensures whole { IsWhole self.now.capacities (J.just self.now.judge) (view_of seat.old) }
    {
        self.locks[at].whole(seat)
    }

    // The seat at one shard takes another's parts and places.
    fn meet_at(&self, at: usize, seat: &mut CacheSeat<J>, other: LockSeat<Shard<J>>)
        requires at { at < 8 }
        requires own { IsSeatOf self.now seat.old.seats.items }
        requires other { (id : _) × (slice_get self.now.ids at ≡ Some id)
            × IsSeat self.now.capacities self.now.judge id other }
        ensures own { IsSeatOf self.now seat.new.seats.items }
        ensures meets { MeetsAt at (views_of seat.old.seats.items) (view_of other)
            (views_of seat.new.seats.items) }
    {
        self.meet_one(at, &mut seat.seats[at], other)
    }

    // The seat at one shard, with all parts of it, knows its whole history.
    fn whole_at(&self, at: usize, seat: &mut CacheSeat<J>)
        requires at { at < 8 }
        requires own { IsSeatOf self.now seat.old.seats.items }
        requires all { HaveAll (views_of seat.old.seats.items) }
        ensures own { IsSeatOf self.now seat.new.seats.items }
        ensures same { views_of seat.new.seats.items ≡ views_of seat.old.seats.items }
        ensures whole { WholeAt at self.now.capacities (J.just self.now.judge)
            (views_of seat.old.seats.items) }
    {
        self.whole_one(at, &mut seat.seats[at])
    }

    /// The right to know the whole is cut in two: the new seat gets one part of it at each shard,
    /// and has seen as much.
    pub fn split(&self, alloc: Global, seat: &mut CacheSeat<J>) -> Result<CacheSeat<J>, NoMemory>
        requires own { IsSeatOf self.now seat.old.seats.items }
        requires parts { HaveParts 2 (views_of seat.old.seats.items) }
        ensures own { IsSeatOf self.now seat.new.seats.items }
        ensures left { MatchResult result
            (λ _. views_of seat.new.seats.items ≡ map left_view (views_of seat.old.seats.items))
            (λ _. seat.new.seats.items ≡ seat.old.seats.items) }
        ensures right_own { IfOk result (λ right. IsSeatOf self.now right.seats.items) }
        ensures right { IfOk result (λ right.
            views_of right.seats.items ≡ map right_view (views_of seat.old.seats.items)) }
    {
        let Ok(mut seats) = Vec::with_capacity(alloc, 8) else {
            return Err(NoMemory);
        };
        for at in 0..8 {
            let right = self.split_at(at, seat);
            seats.push_reserved(right);
        }
        Ok(CacheSeat { seats })
    }

    /// The seat takes the other's parts and places at each shard, and what it has seen.
    pub fn meet(&self, seat: &mut CacheSeat<J>, other: CacheSeat<J>)
        requires own { IsSeatOf self.now seat.old.seats.items }
        requires other { IsSeatOf self.now other.seats.items }
        ensures own { IsSeatOf self.now seat.new.seats.items }
        ensures meets { MeetAll (views_of seat.old.seats.items) (views_of other.seats.items)
            (views_of seat.new.seats.items) }
    {
        let CacheSeat { seats: mut others } = other;
        while let Some(one) = others.pop() {
            let at = others.len();
            self.meet_at(at, seat, one);
        }
    }

    /// A seat with all parts knows the whole history of each shard.
    pub fn whole(&self, seat: &mut CacheSeat<J>)
        requires own { IsSeatOf self.now seat.old.seats.items }
        requires all { HaveAll (views_of seat.old.seats.items) }
        ensures own { IsSeatOf self.now seat.new.seats.items }
        ensures same { views_of seat.new.seats.items ≡ views_of seat.old.seats.items }
        ensures whole { (at : ℕ) → at < 8 → WholeAt at self.now.capacities
            (J.just self.now.judge) (views_of seat.old.seats.items) }
    {
        for at in 0..8 {
            self.whole_at(at, seat);
        }
    }
}
