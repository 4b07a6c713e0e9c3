use chain_build::{Chain, Plans};
use extra_stock::Stock;
use lent_caches::Caches;
use pin_table::Publisher;
use plugin_api::{Extra, Rulebook};
use seeded_hash::Seed;
use std::sync::Arc;

/// A watcher: its watch, the publisher of the table from which the workers pin their chains, the
/// extras that stand in no chain, and what it has counted so far.
#[derive(Drop)]
pub struct Watcher<W, B: Rulebook, E: Extra> {
    pub watch: W,
    pub publisher: Publisher<Chain<B, E>>,
    /// How many workers pin, each a chain of its own.
    pub workers: u64,
    /// What serves: that of the last publication.
    pub current: Arc<Plans<B>>,
    /// The judges, and what is spare; with room for the extras of all chains.
    pub stock: Stock<E>,
    /// Where the chains of replaced generations come home; with room for those of four.
    pub home: Vec<Chain<B, E>>,
    /// The caches of which chains have uses.
    pub caches: Caches,
    /// With which new caches hash.
    pub seed: Seed,
    /// How many looks met want of memory.
    pub starved: u64,
}
