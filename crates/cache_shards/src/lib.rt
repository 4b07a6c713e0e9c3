//! The shards of a cache: two stores of bounded size in each, under a lock of its own.
#![tactic(auto)]

mod cache;
mod calls;
mod judge;
mod shard;
mod slots;
mod store;

pub use cache::{Cache, CacheSeat};
pub use calls::{Kept, Looked, ShardCall, ShardReply};
pub use judge::Judge;
pub use shard::{Shard, Stores};
pub use store::Store;
