use cache_shards::Judge;
use dns_data::{Block, FileTexts};
use std::snapshot::Snapshot;

/// Judges the entries of the cache of a block in a bundle with these files. It stands in proofs
/// alone.
#[derive(Drop)]
pub struct BlockJudge {
    pub files: Snapshot<FileTexts>,
    pub block: Snapshot<Block>,
}

impl Judge for BlockJudge {
    ghost use Rattle.lent_caches.specs.Judging.{is_just};

    ghost just = { is_just };
}
