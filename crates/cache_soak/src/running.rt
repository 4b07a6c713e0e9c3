//! A long history of gets and puts, each answer held against counting.
ghost use Rattle.std.specs.Prelude.{◌<◌, ◌^◌};
ghost use Rattle.cache_shards.specs.Seats.{IsSeatOf};

use crate::counting::{Use, found};
use crate::making::{Anything, Made, key, plan};
use crate::rows::{get, put};
use cache_shards::{Cache, CacheSeat};
use dns_data::NoMemory;
use outside::{Class, Key};
use seeded_hash::Seed;
use std::alloc::Global;
use std::sync::Wait;

// The uses of both stores of one shard.
#[derive(Drop)]
struct Uses {
    denial: Vec<Use>,
    success: Vec<Use>,
}

impl Uses {
    fn new(alloc: Global) -> Uses {
        Uses {
            denial: Vec::new(alloc),
            success: Vec::new(alloc),
        }
    }

    fn found(&self, key: u16, room: Room, now: u64) -> Option<Made> {
        if let Some(made) = found(self.denial.as_slice(), key, room.denial, now) {
            return Some(made);
        }
        found(self.success.as_slice(), key, room.success, now)
    }

    fn note(&mut self, one: Use) -> Result<(), NoMemory> {
        match one.made.class {
            Class::Success => self.success.push(one)?,
            Class::Denial | Class::Servfail => self.denial.push(one)?,
        }
        Ok(())
    }
}

/// How many entries each store of a shard keeps, and the words for what all shards do.
#[derive(Clone, Copy)]
pub struct Room {
    pub success: u32,
    pub denial: u32,
    pub words: (&'static str, &'static str),
}

// The uses of two shards.
#[derive(Drop)]
struct Counts {
    even: Uses,
    odd: Uses,
    room: Room,
}

impl Counts {
    fn found(&self, key: u16, now: u64) -> Option<Made> {
        if key % 2 == 0 {
            return self.even.found(key, self.room, now);
        }
        self.odd.found(key, self.room, now)
    }

    fn note(&mut self, key: u16, made: Made, is_put: bool) -> Result<(), NoMemory> {
        let one = Use { key, made, is_put };
        if key % 2 == 0 {
            return self.even.note(one);
        }
        self.odd.note(one)
    }
}

// What is done next: at which key, at what time.
#[derive(Drop)]
struct Next {
    word: u64,
    now: u64,
}

impl Next {
    fn step(&mut self) {
        self.word = self
            .word
            .wrapping_mul(6_364_136_223_846_793_005)
            .wrapping_add(1_442_695_040_888_963_407);
        self.now = self.now.saturating_add(self.word / 1_048_576 % 400);
        if self.word / 16_777_216 % 64 == 0 {
            self.now = self.now.saturating_sub(3_000);
        }
    }

    // One of 24 keys.
    fn key(&self) -> u16
        ensures { result < 24 }
    {
        (self.word / 4_294_967_296 % 24) as u16
    }

    fn is_put(&self) -> bool {
        self.word / 1_099_511_627_776 % 3 == 0
    }

    fn made(&self) -> Made
        ensures { result.life < 2 ^ 31 }
    {
        let class = if self.word / 281_474_976_710_656 % 2 == 0 {
            Class::Success
        } else {
            Class::Denial
        };
        Made {
            class,
            born: self.now,
            life: (self.word / 70_368_744_177_664 % 4) as u32,
            number: (self.word % 65_536) as u32,
        }
    }
}

// Half of the keys stand in one shard, and half in the next.
fn key_of(alloc: Global, number: u16) -> Result<Key, NoMemory>
    requires { number < 24 }
{
    key(
        alloc,
        b"www.example.org.".as_slice(),
        8 * (number / 2) + 1 + number % 2,
    )
}

// One call at the cache, and by counting. Whether both answer the same.
fn turn<R: Wait>(
    rt: &R,
    alloc: Global,
    cache: &Cache<Anything>,
    seat: &mut CacheSeat<Anything>,
    counts: &mut Counts,
    next: &Next,
) -> Result<bool, NoMemory>
    requires own { IsSeatOf cache.now seat.old.seats.items }
    ensures own { IsSeatOf cache.now seat.new.seats.items }
{
    let number = next.key();
    let key = key_of(alloc, number)?;
    if next.is_put() {
        let made = next.made();
        put(rt, alloc, cache, seat, key, made)?;
        counts.note(number, made, true)?;
        return Ok(true);
    }
    let got = get(rt, alloc, cache, seat, &key, next.now)?;
    match counts.found(number, next.now) {
        Some(made) => {
            counts.note(number, made, false)?;
            Ok(got == Some(made))
        }
        None => Ok(got.is_none()),
    }
}

fn turns<R: Wait>(
    rt: &R,
    alloc: Global,
    cache: &Cache<Anything>,
    seat: &mut CacheSeat<Anything>,
    counts: &mut Counts,
    many: u64,
) -> Result<u64, NoMemory>
    requires own { IsSeatOf cache.now seat.old.seats.items }
    ensures own { IsSeatOf cache.now seat.new.seats.items }
{
    let mut next = Next {
        word: many,
        now: 10_000,
    };
    let mut faults: u64 = 0;
    for _ in 0..many {
        next.step();
        if !turn(rt, alloc, cache, seat, counts, &next)? {
            faults = faults.saturating_add(1);
        }
    }
    Ok(faults)
}

/// How many of so many calls answer otherwise than counting does.
pub fn history<R: Wait>(rt: &R, alloc: Global, room: Room, many: u64) -> Result<u64, NoMemory> {
    let plan = plan(alloc, room.words.0, room.words.1)?;
    let (cache, mut seat) = Cache::new(alloc, &plan, Anything, 1, Seed::new(3, 9))?;
    let mut counts = Counts {
        even: Uses::new(alloc),
        odd: Uses::new(alloc),
        room,
    };
    turns(rt, alloc, &cache, &mut seat, &mut counts, many)
}
