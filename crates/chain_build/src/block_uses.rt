use forward_plugin::Pools;
use lent_caches::LentCache;

/// What a worker's chain uses of what workers share for a block.
#[derive(Drop)]
pub struct BlockUses {
    /// A use of each pool of upstreams, which the workers of a generation share.
    pub pools: Pools,
    /// The use of the cache, where the block has one. It is shared with all generations in which a
    /// block read the same.
    pub cache: Option<LentCache>,
}
