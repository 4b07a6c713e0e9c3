//! Workers that run at once at one cache, and what their seats tell together at the end.
ghost use Rattle.std.specs.Prelude.{◌≡◌, ℕ, ◌<◌, ◌^◌, All, IfOk, length};
ghost use Rattle.cache_shards.specs.Seats.{IsSeatOf, WholeAt, views_of};
ghost use Rattle.cache_soak.specs.Judging.{is_any};
ghost use Rattle.cache_soak.specs.Shares.{AreShares};
ghost use Rattle.cache_soak.specs.Workers.{IsWorking};

use crate::deeds::{Deed, Deeds, strange_hits};
use crate::making::{Anything, Made, key, plan};
use crate::rows::{get, put};
use cache_shards::{Cache, CacheSeat};
use dns_data::NoMemory;
use outside::Class;
use seeded_hash::Seed;
use std::alloc::Global;
use std::sync::Wait;
use std::thread;
use std::thread::Threads;

const TURNS: u64 = 50_000;

/// A worker with its seat.
#[derive(Drop)]
pub struct Worker {
    seat: CacheSeat<Anything>,
    word: u64,
    deeds: Deeds,
    faults: u64,
}

/// What was done in all.
#[derive(Drop)]
pub struct Done {
    pub puts: u64,
    /// Whether some were hits.
    pub is_hit: bool,
    /// Hits that give what no worker had put so.
    pub strange: u64,
    pub faults: u64,
}

/// The cache, and the seat that all others met.
#[derive(Drop)]
pub struct Ended {
    pub cache: Cache<Anything>,
    pub seat: CacheSeat<Anything>,
    pub done: Done,
}

// What a worker puts under one of 40 keys.
fn made_of(word: u64, number: u32, now: u64) -> Made
    ensures { result.life < 2 ^ 31 }
{
    let class = if word / 281_474_976_710_656 % 2 == 0 {
        Class::Success
    } else {
        Class::Denial
    };
    Made {
        class,
        born: now,
        life: (word / 70_368_744_177_664 % 4) as u32,
        number,
    }
}

// A get, or each third time a put, under one of 40 keys in all eight shards.
#[tactic(auto, using(crate::proofs::Shares::kept_shares))]
fn turn<R: Wait>(
    rt: &R,
    alloc: Global,
    cache: &Cache<Anything>,
    worker: &mut Worker,
    now: u64,
) -> Result<(), NoMemory>
    requires { IsWorking cache.now worker.old }
    ensures { IsWorking cache.now worker.new }
{
    let word = worker
        .word
        .wrapping_mul(6_364_136_223_846_793_005)
        .wrapping_add(1_442_695_040_888_963_407);
    worker.word = word;
    let number = (word / 4_294_967_296 % 40) as u16;
    let key = key(alloc, b"www.example.org.".as_slice(), 1 + number)?;
    if word / 1_099_511_627_776 % 3 == 0 {
        let made = made_of(word, worker.deeds.next_number(), now);
        worker.deeds.puts.push(Deed {
            key: number,
            made,
            now,
        })?;
        return put(rt, alloc, cache, &mut worker.seat, key, made);
    }
    if let Some(made) = get(rt, alloc, cache, &mut worker.seat, &key, now)? {
        let hit = Deed {
            key: number,
            made,
            now,
        };
        if !worker.deeds.note_hit(hit)? {
            worker.faults = worker.faults.saturating_add(1);
        }
    }
    Ok(())
}

// The clock goes on with the turns, so that each worker has its own.
fn work<R: Wait>(rt: &R, alloc: Global, cache: &Cache<Anything>, worker: &mut Worker)
    requires { IsWorking cache.now worker.old }
    ensures { IsWorking cache.now worker.new }
{
    for at in 0..TURNS {
        if turn(rt, alloc, cache, worker, 10_000 + at).is_err() {
            worker.faults = worker.faults.saturating_add(1);
        }
    }
}

fn work_all<R: Threads + Wait + Sync>(
    rt: &R,
    alloc: Global,
    cache: &Cache<Anything>,
    workers: &mut Vec<Worker>,
)
    requires { All (IsWorking cache.now) workers.old.items }
    ensures all { All (IsWorking cache.now) workers.new.items }
    ensures many { length workers.new.items ≡ length workers.old.items }
{
    let run = |_at: usize, worker: &mut Worker|
        requires { IsWorking cache.now worker.now }
        ensures { IsWorking cache.entry.now worker.exit.now }
    {
        work(rt, alloc, cache, worker);
    };
    thread::for_each_mut(rt, workers.as_mut_slice(), 4, &run);
}

fn worker_of(alloc: Global, seat: CacheSeat<Anything>, number: u32) -> Worker
    ensures { result.seat ≡ seat }
{
    Worker {
        seat,
        word: u64::from(number),
        deeds: Deeds::new(alloc, number),
        faults: 0,
    }
}

// Four workers, each with a part that is cut off the seat.
fn enlist(
    alloc: Global,
    cache: &Cache<Anything>,
    seat: &mut CacheSeat<Anything>,
) -> Result<Vec<Worker>, NoMemory>
    requires own { IsSeatOf cache.now seat.old.seats.items }
    requires share { AreShares 5 5 (views_of seat.old.seats.items) }
    ensures own { IsSeatOf cache.now seat.new.seats.items }
    ensures share { IfOk result (λ _. AreShares 5 1 (views_of seat.new.seats.items)) }
    ensures workers { IfOk result (λ workers. All (IsWorking cache.now) workers.items) }
    ensures four { IfOk result (λ workers. length workers.items ≡ 4) }
{
    let mut workers = Vec::new(alloc);
    for number in 0..4_u32 {
        let other = cache.split(alloc, seat)?;
        workers.push(worker_of(alloc, other, number))?;
    }
    Ok(workers)
}

fn done_of(alloc: Global, workers: &[Worker]) -> Result<Done, NoMemory> {
    let mut done = Done {
        puts: 0,
        is_hit: false,
        strange: 0,
        faults: 0,
    };
    let mut all = Vec::new(alloc);
    for worker in workers {
        let deeds = &worker.deeds;
        done.puts = done.puts.saturating_add(deeds.puts.len() as u64);
        done.is_hit = done.is_hit || !deeds.hits.is_empty();
        done.faults = done.faults.saturating_add(worker.faults);
        all.push(deeds)?;
    }
    done.strange = strange_hits(all.as_slice());
    Ok(done)
}

// All seats meet in one, which then knows the whole history of each shard.
fn gather(cache: &Cache<Anything>, seat: &mut CacheSeat<Anything>, mut workers: Vec<Worker>)
    requires own { IsSeatOf cache.now seat.old.seats.items }
    requires share { AreShares 5 1 (views_of seat.old.seats.items) }
    requires workers { All (IsWorking cache.now) workers.items }
    requires four { length workers.items ≡ 4 }
    ensures own { IsSeatOf cache.now seat.new.seats.items }
    ensures whole { (at : ℕ) → at < 8 → WholeAt at cache.now.capacities
        (is_any cache.now.judge) (views_of seat.new.seats.items) }
{
    while let Some(worker) = workers.pop() {
        let Worker { seat: other, .. } = worker;
        cache.meet(seat, other);
    }
    cache.whole(seat);
}

/// Four workers at a cache whose stores keep two and three entries a shard, and a seat that knows
/// the whole of what they did.
pub fn run_at_once<R: Threads + Wait + Sync>(rt: &R, alloc: Global) -> Result<Ended, NoMemory>
    ensures own { IfOk result (λ e. IsSeatOf e.cache e.seat.seats.items) }
    ensures whole { IfOk result (λ e. (at : ℕ) → at < 8 → WholeAt at e.cache.capacities
        (is_any e.cache.judge) (views_of e.seat.seats.items)) }
{
    let plan = plan(alloc, "16", "24")?;
    let (cache, mut seat) = Cache::new(alloc, &plan, Anything, 5, Seed::new(11, 13))?;
    let mut workers = enlist(alloc, &cache, &mut seat)?;
    work_all(rt, alloc, &cache, &mut workers);
    let done = done_of(alloc, workers.as_slice())?;
    gather(&cache, &mut seat, workers);
    Ok(Ended { cache, seat, done })
}
