//! A shard, as the object of a lock.
ghost use Rattle.std.specs.Prelude.{◌≡◌};
ghost use Rattle.cache_shards.specs.Steps.{Gets, PutsIn};

use crate::calls::{Kept, ShardCall, ShardReply};
use crate::judge::Judge;
use crate::store::{Found, Store};
use outside::{Class, Entry, Key};
use ruled_lock::Object;
use std::snapshot::Snapshot;
use std::sync::Arc;

/// A store for what succeeded, and one for denials and failures.
#[derive(Drop)]
pub struct Stores {
    pub(crate) success: Store,
    pub(crate) denial: Store,
}

/// The stores are boxed, since a lock moves its object.
#[derive(Drop)]
pub struct Shard<J> {
    pub(crate) judge: Snapshot<J>,
    pub(crate) stores: Box<Stores>,
}

impl Stores {
    // The denials are asked first.
    fn get(&mut self, key: &Key, now: u64) -> ShardReply
        ensures { Gets self.old key.now now result self.new }
    {
        match self.denial.look(key, now) {
            Found::Hit(entry) => ShardReply::Hit(entry),
            Found::NoMemory => ShardReply::NoMemory,
            Found::Nothing => match self.success.look(key, now) {
                Found::Hit(entry) => ShardReply::Hit(entry),
                Found::NoMemory => ShardReply::NoMemory,
                Found::Nothing => ShardReply::Miss,
            },
        }
    }

    fn put(&mut self, key: Key, entry: Arc<Entry>) -> ShardReply
        ensures { PutsIn self.old key entry result self.new }
    {
        let kept = match entry.class {
            Class::Success => self.success.put(key, entry),
            Class::Denial | Class::Servfail => self.denial.put(key, entry),
        };
        match kept {
            Kept::Kept => ShardReply::Kept,
            Kept::NoMemory => ShardReply::NoMemory,
        }
    }
}

impl<J: Judge> Object for Shard<J> {
    type Call = ShardCall;

    type Reply = ShardReply;

    ghost use Rattle.cache_shards.specs.Steps.{Steps, IsAllowed, allowed_stays};

    ghost step = { Steps };

    ghost allowed = { IsAllowed J.just };

    fn apply(&mut self, call: ShardCall) -> ShardReply {
        match call {
            ShardCall::Get(key, now) => self.stores.get(&key, now),
            ShardCall::Put(key, entry) => self.stores.put(key, entry),
        }
    }

    ghost stays = { allowed_stays J.just };
}
