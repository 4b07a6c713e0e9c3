use crate::block_uses::BlockUses;
use extra_stock::Seats;
use plugin_api::{Extra, Rulebook};

/// What a worker's chain has for itself.
#[derive(Drop)]
pub struct Held<B: Rulebook, E: Extra> {
    /// The serial of its generation.
    pub serial: u64,
    /// The number of its worker.
    pub worker: u64,
    /// An extra for each directive of one, block by block.
    pub seats: Vec<Seats<B, E>>,
    /// The uses of what workers share, block by block.
    pub uses: Vec<BlockUses>,
}
