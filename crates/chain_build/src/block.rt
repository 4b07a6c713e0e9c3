ghost use Rattle.std.specs.Prelude.{map};
ghost use Rattle.chain_build.specs.Compiled.{back_of};
ghost use Rattle.chain_build.specs.Judges.{AreJudged};
ghost use Rattle.chain_build.specs.Pools.{HasLoneForward, HasOneForward};

use crate::block_chain::{BackAnswerer, FrontAnswerer, FrontStep};
use cache_rules::CachePlan;
use dns_data::{Directives, Seq};
use dns64_plugin::Dns64Plan;
use lent_caches::NamedCache;
use rewrite_plugin::RewritePlan;

/// The chain of a block, as it runs.
#[derive(Drop)]
pub struct BlockChain {
    /// Those that note.
    pub front: Seq<FrontStep>,
    pub dns64: Option<Dns64Plan>,
    /// Those in front of a cache that answer or go on.
    pub middle: Seq<FrontAnswerer>,
    /// The directives of extras, which stand behind these.
    pub extras: Directives,
    /// The directive of the cache, which stands behind these.
    pub cache: Option<CachePlan>,
    /// The rules that change the query for the plugins behind them.
    pub rewrites: Seq<RewritePlan>,
    pub back: Seq<BackAnswerer>,
    /// Whether a `forward` stands in `back`, so that no query is tried without one. It tells which
    /// way a query goes, and not where that ends.
    pub asks: bool,
    /// The cache that serves it, under its name. None before its generation has a serial, and where
    /// it has no cache.
    pub named: Option<NamedCache>,
    ghost one: { HasOneForward back },
    ghost lone: { HasLoneForward (map back_of back) },
    ghost judged: { AreJudged named cache rewrites back },
}
