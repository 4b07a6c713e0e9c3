//! Gets, each with a put behind a miss, by hand.
ghost use Rattle.std.specs.Prelude.{◌<◌, ◌^◌};
ghost use Rattle.cache_shards.specs.Seats.{IsSeatOf, views_of};
ghost use Rattle.cache_soak.specs.Shares.{KeepsParts};

use crate::making::{Anything, Made, entry, key, made_of, plan};
use cache_shards::{Cache, CacheSeat, Kept, Looked};
use dns_data::NoMemory;
use outside::{Class, Key};
use seeded_hash::Seed;
use std::alloc::Global;
use std::sync::{Arc, Wait};

/// A get: what the entry was made of, or none.
pub fn get<R: Wait>(
    rt: &R,
    alloc: Global,
    cache: &Cache<Anything>,
    seat: &mut CacheSeat<Anything>,
    key: &Key,
    now: u64,
) -> Result<Option<Made>, NoMemory>
    requires own { IsSeatOf cache.now seat.old.seats.items }
    ensures own { IsSeatOf cache.now seat.new.seats.items }
    ensures parts { KeepsParts (views_of seat.old.seats.items) (views_of seat.new.seats.items) }
{
    match cache.get(alloc, rt, seat, key, now) {
        Looked::Hit(entry) => Ok(Some(made_of(&entry))),
        Looked::Miss => Ok(None),
        Looked::NoMemory => Err(NoMemory),
    }
}

/// A put.
pub fn put<R: Wait>(
    rt: &R,
    alloc: Global,
    cache: &Cache<Anything>,
    seat: &mut CacheSeat<Anything>,
    key: Key,
    made: Made,
) -> Result<(), NoMemory>
    requires own { IsSeatOf cache.now seat.old.seats.items }
    requires life { made.life < 2 ^ 31 }
    ensures own { IsSeatOf cache.now seat.new.seats.items }
    ensures parts { KeepsParts (views_of seat.old.seats.items) (views_of seat.new.seats.items) }
{
    let entry = Arc::new(alloc, entry(alloc, made))?;
    match cache.put(rt, seat, key, entry) {
        Kept::Kept => Ok(()),
        Kept::NoMemory => Err(NoMemory),
    }
}

// A get, and a put behind a miss. One letter tells which it was.
fn asked<R: Wait>(
    rt: &R,
    alloc: Global,
    cache: &Cache<Anything>,
    seat: &mut CacheSeat<Anything>,
    name: &[u8],
    made: Made,
) -> Result<u8, NoMemory>
    requires own { IsSeatOf cache.now seat.old.seats.items }
    requires life { made.life < 2 ^ 31 }
    ensures own { IsSeatOf cache.now seat.new.seats.items }
{
    let key = key(alloc, name, 1)?;
    if get(rt, alloc, cache, seat, &key, made.born)?.is_some() {
        return Ok(b'h');
    }
    put(rt, alloc, cache, seat, key, made)?;
    Ok(b'm')
}

/// One get of a row: the name, the time and the lifetime.
#[derive(Clone, Copy)]
pub struct Ask<'a> {
    pub name: &'a [u8],
    pub now: u64,
    pub life: u32,
}

// Gets of a new cache, whose stores keep so many entries in all shards together.
fn row<R: Wait>(rt: &R, alloc: Global, room: &str, asks: &[Ask<'_>]) -> Result<String, NoMemory> {
    let plan = plan(alloc, room, room)?;
    let (cache, mut seat) = Cache::new(alloc, &plan, Anything, 1, Seed::new(5, 7))?;
    letters(rt, alloc, &cache, &mut seat, asks)
}

fn letters<R: Wait>(
    rt: &R,
    alloc: Global,
    cache: &Cache<Anything>,
    seat: &mut CacheSeat<Anything>,
    asks: &[Ask<'_>],
) -> Result<String, NoMemory>
    requires own { IsSeatOf cache.now seat.old.seats.items }
    ensures own { IsSeatOf cache.now seat.new.seats.items }
{
    let mut told = String::new(alloc);
    for one in asks {
        if 0x7fff_ffff < one.life {
            return Err(NoMemory);
        }
        let made = Made {
            class: Class::Success,
            born: one.now,
            life: one.life,
            number: 0,
        };
        let letter = asked(rt, alloc, cache, seat, one.name, made)?;
        told.push(char::from(letter))?;
    }
    Ok(told)
}

fn at(name: &[u8], now: u64, life: u32) -> Ask<'_> {
    Ask { name, now, life }
}

/// A name is asked for as its entry ends, and as the clock is set back.
pub fn ends<R: Wait>(rt: &R, alloc: Global) -> Result<String, NoMemory> {
    let name = b"example.org.".as_slice();
    let asks = [
        at(name, 0, 10),
        at(name, 9_999, 10),
        at(name, 10_000, 10),
        at(name, 9_000, 10),
    ];
    row(rt, alloc, "9984", asks.as_slice())
}

/// Three names in a shard of two entries.
pub fn three_in_two<R: Wait>(rt: &R, alloc: Global) -> Result<String, NoMemory> {
    let a = b"a.test.".as_slice();
    let i = b"i.test.".as_slice();
    let q = b"q.test.".as_slice();
    let asks = [
        at(a, 0, 60),
        at(i, 0, 60),
        at(a, 0, 60),
        at(q, 0, 60),
        at(a, 0, 60),
        at(i, 0, 60),
    ];
    row(rt, alloc, "16", asks.as_slice())
}

/// The shortest and the longest lifetime.
pub fn lifetimes<R: Wait>(rt: &R, alloc: Global) -> Result<String, NoMemory> {
    let short = b"a.test.".as_slice();
    let long = b"b.test.".as_slice();
    let asks = [
        at(short, 5, 0),
        at(short, 5, 0),
        at(long, 5, 0x7fff_ffff),
        at(long, 2_147_483_647_004, 1),
        at(long, 2_147_483_647_005, 1),
    ];
    row(rt, alloc, "8", asks.as_slice())
}
