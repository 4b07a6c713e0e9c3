//! Keys and entries, made by a few numbers.
ghost use Rattle.std.specs.Prelude.{◌≡◌, ◌<◌, ◌^◌, IfOk};

use cache_rules::CachePlan;
use cache_shards::Judge;
use dns_data::{Addr, Answer, Directive, Line, Name, NoMemory, Query, Seq, Text, Texts, Transport};
use outside::{Class, Entry, Key};
use std::alloc::Global;

/// Any entry may stand in the cache.
#[derive(Drop)]
pub struct Anything;

impl Judge for Anything {
    ghost use Rattle.cache_soak.specs.Judging.{is_any};

    ghost just = { is_any };
}

/// A class, when it was made, how long it lives, and a number by which it is told apart.
#[derive(Clone, Copy, Debug, PartialEq, Eq)]
pub struct Made {
    pub class: Class,
    pub born: u64,
    pub life: u32,
    pub number: u32,
}

/// An entry without records.
pub fn entry(alloc: Global, made: Made) -> Entry
    requires { made.life < 2 ^ 31 }
{
    Entry {
        class: made.class,
        born: made.born,
        life: made.life,
        answer: Answer {
            rcode: 0,
            aa: false,
            ra: false,
            tc: false,
            answer: Seq::new(alloc),
            authority: Seq::new(alloc),
            additional: Seq::new(alloc),
        },
        origin: Query {
            name: Name::root(alloc),
            kind: 1,
            dnssec: false,
            cd: false,
            rd: true,
            edns: false,
            client: Addr::V4(made.number),
            port: 4000,
            by: Transport::Udp,
            local: 53,
        },
        inner: Seq::new(alloc),
    }
}

/// What an entry was made of.
pub fn made_of(entry: &Entry) -> Made {
    let number = match entry.origin.client {
        Addr::V4(number) => number,
        Addr::V6(_) => u32::MAX,
    };
    Made {
        class: entry.class,
        born: entry.born,
        life: entry.life,
        number,
    }
}

/// The key of a name and a type.
pub fn key(alloc: Global, text: &[u8], kind: u16) -> Result<Key, NoMemory> {
    let root = Name::root(alloc);
    let Ok(name) = Name::read(alloc, text, &root) else {
        return Err(NoMemory);
    };
    Ok(Key {
        name,
        kind,
        dnssec: false,
        cd: false,
    })
}

/// What a directive says with these capacities, which all shards have together.
pub fn plan(alloc: Global, success: &str, denial: &str) -> Result<CachePlan, NoMemory> {
    let mut body = Seq::new(alloc);
    body.push(line(alloc, "success", success)?)?;
    body.push(line(alloc, "denial", denial)?)?;
    let directive = Directive {
        name: Text::from_str(alloc, "cache")?,
        args: Seq::new(alloc),
        body,
        line: 1,
    };
    let mut zones = Seq::new(alloc);
    zones.push(Name::root(alloc))?;
    match CachePlan::read(alloc, &directive, &zones) {
        Ok(plan) => Ok(plan),
        Err(_) => Err(NoMemory),
    }
}

fn line(alloc: Global, option: &str, word: &str) -> Result<Line, NoMemory> {
    let mut words: Texts = Seq::new(alloc);
    words.push(Text::from_str(alloc, option)?)?;
    words.push(Text::from_str(alloc, word)?)?;
    Ok(Line { words, number: 2 })
}
