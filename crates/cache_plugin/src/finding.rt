//! One reading of the clock, and one look.
ghost use Rattle.std.specs.Prelude.{◌≡◌, IfOk};
ghost use Rattle.cache_rules.specs.{key_of};
ghost use Rattle.chain_meaning.specs.Caching.{take_look, take_looked};
ghost use Rattle.cache_plugin.specs.Calling.{CallsBy, IsEntryFound, MissesBy, entry_found};
ghost use Rattle.cache_plugin.specs.Calling.{look_result};
ghost use Rattle.cache_shards.specs.Calls.{looked_marks};
ghost use Rattle.outside.specs.Marks.{Adds};
ghost use Rattle.outside.specs.States.{Stays};
ghost use Rattle.cache_plugin.specs.Calling.{looked, state_at};
ghost use Rattle.cache_plugin.specs.Uses.{KeepsParts, SameUse, use_logs};

use crate::cache_use::{CacheQuery, CacheUse, Found, Missed};
use cache_rules::key_of;
use cache_shards::{Judge, Looked};
use dns_data::NoMemory;
use outside::{Key, Seen, Side};
use std::alloc::Global;
use std::sync::Wait;

impl<J: Judge> CacheUse<J> {
    /// Reads the clock and looks for the answer to a query.
    pub fn find<R: Wait, S: Side>(
        &mut self,
        asked: &CacheQuery<'_, R>,
        side: &mut S,
    ) -> Result<Found, NoMemory>
        ensures same { SameUse self.old self.new }
        ensures keeps { KeepsParts self.old self.new }
        ensures key { IfOk result (MissesBy (key_of asked.now.query.now)) }
        ensures calls { CallsBy (key_of asked.now.query.now)
            (take_look (key_of asked.now.query.now)) (look_result result)
            (state_at (S.state side.old) (use_logs self.old))
            (state_at (S.state side.new) (use_logs self.new)) }
    {
        let moment = side.now();
        let key = key_of(asked.alloc, asked.query)?;
        self.look(asked.alloc, asked.rt, key, moment, side)
    }

    // Looks for an entry under a key.
    fn look<R: Wait, S: Side>(
        &mut self,
        alloc: Global,
        rt: &R,
        key: Key,
        moment: u64,
        side: &mut S,
    ) -> Result<Found, NoMemory>
        ensures same { SameUse self.old self.new }
        ensures keeps { KeepsParts self.old self.new }
        ensures key { IfOk result (MissesBy key) }
        ensures moment { IfOk result (λ found. (looked found).moment ≡ moment) }
        ensures calls { CallsBy key (take_looked key moment) (entry_found result)
            (state_at (S.state side.old) (use_logs self.old))
            (state_at (S.state side.new) (use_logs self.new)) }
    {
        let got = self.cache.get(alloc, rt, &mut self.seat, &key, moment);
        show(&key, moment, &got, side);
        found_of(key, moment, got)
    }
}

// Shows a side what was looked up.
fn show<S: Side>(key: &Key, moment: u64, got: &Looked, side: &mut S)
    ensures told { Adds (S.state side.old) (S.state side.new)
        (looked_marks key.now moment got.now) }
    ensures stays { Stays (S.state side.old) (S.state side.new) }
{
    match got {
        Looked::Hit(entry) => side.saw(Seen::Looked(key, moment, Some(entry))),
        Looked::Miss => side.saw(Seen::Looked(key, moment, None)),
        Looked::NoMemory => {}
    }
}

// What was found at this moment.
fn found_of(key: Key, moment: u64, got: Looked) -> Result<Found, NoMemory>
    ensures key { IfOk result (MissesBy key) }
    ensures moment { IfOk result (λ found. (looked found).moment ≡ moment) }
    ensures entry { IsEntryFound got (entry_found result) }
{
    match got {
        Looked::Hit(entry) => Ok(Found::Hit(entry, moment)),
        Looked::Miss => Ok(Found::Miss(Missed { key, moment })),
        Looked::NoMemory => Err(NoMemory),
    }
}
