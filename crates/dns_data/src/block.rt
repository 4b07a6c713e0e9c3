use crate::{BlockKeys, Copies, Directives, Name, NoMemory};
use std::alloc::Global;

/// A key of a block of a Corefile: the zone, in small letters, and the port that the block serves.
#[derive(Debug, Drop)]
pub struct BlockKey {
    pub zone: Name,
    pub port: u16,
    /// The number of its line in the Corefile, from 1.
    pub line: u32,
}

/// A block of a Corefile: what it serves, and how.
#[derive(Debug, Drop)]
pub struct Block {
    pub keys: BlockKeys,
    pub directives: Directives,
}

impl Copies for BlockKey {
    fn copy(&self, alloc: Global) -> Result<BlockKey, NoMemory> {
        Ok(BlockKey {
            zone: self.zone.copy(alloc)?,
            port: self.port,
            line: self.line,
        })
    }
}

impl Copies for Block {
    fn copy(&self, alloc: Global) -> Result<Block, NoMemory> {
        Ok(Block {
            keys: self.keys.copy(alloc)?,
            directives: self.directives.copy(alloc)?,
        })
    }
}
