//! Uses of caches, lent and held.
ghost use Rattle.lent_caches.specs.Uses.{IsLent, IsRest};

use crate::judge::BlockJudge;
use crate::name::CacheName;
use cache_plugin::CacheUse;

/// The parts of a cache: one for each use that may be out, and one for what is held.
pub const PARTS: u64 = 256;

/// A chain's use of a cache, under the cache's name.
#[derive(Drop)]
pub struct LentCache {
    pub name: CacheName,
    pub of: CacheUse<BlockJudge>,
    ghost lent: { IsLent of },
}

/// A cache of which uses are out, with the rest of its parts, which makes no call.
#[derive(Drop)]
pub struct HeldCache {
    pub name: CacheName,
    pub rest: CacheUse<BlockJudge>,
    /// How many uses are out.
    pub out: u64,
    ghost kept: { IsRest out rest },
}
