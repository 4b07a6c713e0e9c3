ghost use Rattle.std.specs.Prelude.{◌≡◌, IfOk};
ghost use Rattle.lent_caches.specs.Named.{named_data};
ghost use Rattle.lent_caches.specs.Names.{same_name};

use crate::judge::BlockJudge;
use cache_shards::Cache;
use dns_lists::NoMemory;
use std::sync::Arc;

/// Which cache: the serial of the generation with which it began, and its block there.
#[derive(Clone, Copy, Debug, Drop)]
pub struct CacheName {
    pub serial: u64,
    pub block: u64,
}

impl CacheName {
    pub fn is_same(&self, other: CacheName) -> bool
        ensures { result ≡ same_name self.now other }
    {
        self.serial == other.serial && self.block == other.block
    }
}

/// A cache with its name.
#[derive(Drop)]
pub struct NamedCache {
    pub name: CacheName,
    pub cache: Arc<Cache<BlockJudge>>,
}

impl NamedCache {
    /// The same once more.
    pub fn again(&self) -> Result<NamedCache, NoMemory>
        ensures { IfOk result (λ again. named_data again ≡ named_data self.now) }
    {
        Ok(NamedCache {
            name: self.name,
            cache: Arc::try_clone(&self.cache)?,
        })
    }
}
