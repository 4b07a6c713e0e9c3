ghost use Rattle.std.specs.Prelude.{◌≡◌, ◌<◌, ◌^◌, List, length, IfOk, IsTrue, [], ◌∷◌};
ghost use Rattle.dns_data.specs.declared.block.Block.{Block as BlockData};
ghost use Rattle.plugin_api.specs.Index.{AddsKeys, IsIndexOf, block_in};
ghost use Rattle.plugin_api.specs.Picking.{picked};

use crate::services::{Service, one_service, service_on};
use dns_data::{Block, BlockKey, Blocks, Copies, Labels, Name, NoMemory, Seq};
use name_table::NameTable;
use std::alloc::Global;
use std::marker::Model;

/// The index of more keys than so many is slower, and no larger at the start.
const MOST: usize = 4_194_304;

/// The blocks of a Corefile by zone and port, for `find`.
#[derive(Debug, Drop)]
pub struct BlockIndex {
    zones: NameTable,
    // Which blocks serve each zone, by port.
    services: Vec<Seq<Service>>,
    // Whether the root is the one zone, as in most Corefiles. No name is looked up then.
    is_root: bool,
}

impl Model for BlockIndex {
    ghost use Rattle.std.specs.Prelude.{◌≡◌, [], ◌∷◌, length, true};
    ghost use Rattle.plugin_api.specs.Index.{IndexData};

    ghost Value = { IndexData };

    ghost view = { λ x. record { zones = x.zones; services = x.services.items } };

    ghost invariant = { λ x. (length x.zones ≡ length x.services.items)
        × (x.is_root ≡ true → x.zones ≡ [] ∷ []) };
}

impl BlockIndex {
    /// An index of blocks.
    pub fn new(alloc: Global, blocks: &Blocks) -> Result<BlockIndex, NoMemory>
        requires few { length blocks.now < 2 ^ 32 }
        ensures { IfOk result (λ index. IsIndexOf index blocks.now) }
    {
        let mut index = BlockIndex {
            zones: NameTable::new(alloc, key_count(blocks.as_slice()))?,
            services: Vec::new(alloc),
            is_root: false,
        };
        for number in 0..blocks.len() {
            index = index.with_keys(alloc, blocks.at(number).keys.as_slice(), number as u32)?;
        }
        Ok(index.marked(alloc))
    }

    /// The block that `pick` picks among the blocks from which the index was made.
    #[inline]
    #[tactic(auto, unfolding(crate::specs::Picking::longest_of))]
    pub fn find(&self, port: u16, name: &Name) -> Option<u32>
        ensures { (blocks : List BlockData) → IsIndexOf self.now blocks
            → result ≡ picked blocks port name.now }
    {
        if self.is_root {
            return service_on(self.services[0].as_slice(), port);
        }
        let mut rest = name.labels();
        loop {
            if let Some(block) = self.block_in(port, &rest) {
                return Some(block);
            }
            let Some(_) = rest.next() else {
                return None;
            };
        }
    }

    // Notes whether the root is the one zone.
    fn marked(self, alloc: Global) -> BlockIndex
        ensures { result ≡ self }
    {
        let BlockIndex {
            zones,
            services,
            is_root: _,
        } = self;
        let is_root = has_root_alone(alloc, &zones);
        BlockIndex {
            zones,
            services,
            is_root,
        }
    }

    // Adds the keys of a block.
    fn with_keys(self, alloc: Global, keys: &[BlockKey], block: u32) -> Result<BlockIndex, NoMemory>
        ensures { IfOk result (λ index. AddsKeys self index keys.now block) }
    {
        let mut index = self;
        for key in keys {
            index = index.with_key(alloc, key, block)?;
        }
        Ok(index)
    }

    // Adds a key of a block. What is found is the first block with its zone and port.
    fn with_key(self, alloc: Global, key: &BlockKey, block: u32) -> Result<BlockIndex, NoMemory>
        ensures { IfOk result (λ index. AddsKeys self index (key.now ∷ []) block) }
    {
        let BlockIndex {
            mut zones,
            mut services,
            is_root: _,
        } = self;
        let service = Service {
            port: key.port,
            block,
        };
        let Some(number) = zones.find(&key.zone.labels()) else {
            services.push(one_service(alloc, service)?)?;
            zones.push(key.zone.copy(alloc)?)?;
            return Ok(BlockIndex {
                zones,
                services,
                is_root: false,
            });
        };
        services[number].push(service)?;
        Ok(BlockIndex {
            zones,
            services,
            is_root: false,
        })
    }

    #[inline]
    fn block_in(&self, port: u16, zone: &Labels<'_>) -> Option<u32>
        ensures { result ≡ block_in self.now port zone.now }
    {
        let number = self.zones.find(zone)?;
        service_on(self.services[number].as_slice(), port)
    }
}

// How many keys the blocks have, or so many as an index is made for.
fn key_count(blocks: &[Block]) -> u32 {
    let mut count = 0;
    for block in blocks {
        count = (count + block.keys.len().min(MOST)).min(MOST);
    }
    count as u32
}

// Whether a table has the root, and no other name.
fn has_root_alone(alloc: Global, zones: &NameTable) -> bool
    ensures { IsTrue result → zones.now ≡ [] ∷ [] }
{
    if zones.len() != 1 {
        return false;
    }
    let root = Name::root(alloc);
    match zones.find(&root.labels()) {
        Some(_) => true,
        None => false,
    }
}
