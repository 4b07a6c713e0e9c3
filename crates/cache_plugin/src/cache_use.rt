use cache_rules::CachePlan;
use cache_shards::{Cache, CacheSeat, Judge};
use dns_data::{Answer, Query};
use outside::{Entry, Kept, Key};
use std::alloc::Global;
use std::marker::Model;
use std::sync::Arc;

/// A worker's use of a cache that the workers of a generation share. Contracts see the cache, and
/// what the use's seats know of its shards.
#[derive(Drop)]
pub struct CacheUse<J: Judge> {
    pub(crate) cache: Arc<Cache<J>>,
    pub(crate) seat: CacheSeat<J>,
}

impl<J: Judge> Model for CacheUse<J> {
    ghost use Rattle.std.specs.Arc.{arc_value};
    ghost use Rattle.cache_shards.specs.Seats.{IsSeatOf, views_of};
    ghost use Rattle.cache_plugin.specs.Uses.{UseData};

    ghost Value = { UseData J };

    ghost view = { λ u. record {
      cache = arc_value u.cache;
      views = views_of u.seat.seats.items;
    } };

    ghost invariant = { λ u. IsSeatOf (arc_value u.cache) u.seat.seats.items };
}

/// A query at a cache, and what its calls work with.
#[derive(Drop)]
pub struct CacheQuery<'a, R> {
    /// By which a worker may wait for the lock of a shard.
    pub rt: &'a R,
    pub alloc: Global,
    pub plan: &'a CachePlan,
    pub query: &'a Query,
}

/// What a look found.
#[derive(Drop)]
pub enum Found {
    /// An entry that is live at this moment, in milliseconds.
    Hit(Arc<Entry>, u64),
    Miss(Missed),
}

/// A miss: the key that was looked for, and when, in milliseconds.
#[derive(Drop)]
pub struct Missed {
    pub key: Key,
    pub moment: u64,
}

/// What was decided behind a miss, and what is kept of the marks that led to it.
#[derive(Drop)]
pub struct Decided {
    pub answer: Answer,
    pub kept: Kept,
}
