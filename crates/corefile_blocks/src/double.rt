ghost use Rattle.std.specs.Prelude.{◌≡◌, IfOk};
ghost use Rattle.dns_data.specs.declared.block.BlockKey.{BlockKey};
ghost use Rattle.corefile_blocks.specs.Keys.{double_key};

use crate::key_index::KeyIndex;
use dns_data::{Block, NoMemory};
use std::alloc::Global;

/// The index of more keys than so many is slower, and no larger at the start.
const MOST: usize = 4_194_304;

/// The line of the first key whose zone and port stood before, in its block or in an earlier one.
pub(crate) fn double_key(alloc: Global, blocks: &[Block]) -> Result<Option<u32>, NoMemory>
    ensures { IfOk result (λ line. line ≡ double_key blocks.now) }
{
    let mut before = KeyIndex::new(alloc, key_count(blocks))?;
    for block in blocks {
        for key in block.keys.as_slice() {
            if before.has(key) {
                return Ok(Some(key.line));
            }
            before = before.with_key(alloc, key)?;
        }
    }
    Ok(None)
}

// How many keys the blocks have, or so many as an index is made for.
fn key_count(blocks: &[Block]) -> u32 {
    let mut count = 0;
    for block in blocks {
        count = (count + block.keys.len().min(MOST)).min(MOST);
    }
    count as u32
}
