//! The order of directives, and which block serves a name: `rank TEXT`, `pick BLOCKS PORT:NAME`.

use crate::case::Case;
use crate::fields::read_name;
use case_fields::{CaseFault, put_number, put_word, read_text};
use dns_data::{Block, BlockKey, BlockKeys, Blocks, Directives};
use plugin_api::{BlockIndex, Rank, pick, rank};
use std::alloc::Global;

/// The place of a name's rank in a chain and whether it may stand once or more often, or `none`.
pub fn order(alloc: Global, case: &Case<'_>, out: &mut String) -> Result<(), CaseFault> {
    match rank(&read_text(alloc, case.argument()?)?) {
        Some(rank) => put_rank(out, rank),
        None => put_word(out, "none"),
    }
}

fn put_rank(out: &mut String, rank: Rank) -> Result<(), CaseFault> {
    put_number(out, u64::from(rank.order()))?;
    put_word(out, if rank.is_once() { " once" } else { " more" })
}

/// The number of the block that serves a name, or `none`: from the list, and from its index.
pub fn picked(alloc: Global, case: &Case<'_>, out: &mut String) -> Result<(), CaseFault> {
    let (blocks, asked) = case.arguments()?;
    let blocks = read_blocks(alloc, blocks)?;
    let asked = read_key(alloc, asked)?;
    if u32::MAX as usize <= blocks.len() {
        return Err(CaseFault::Bad);
    }
    let index = BlockIndex::new(alloc, &blocks)?;
    put_picked(out, pick(&blocks, asked.port, &asked.zone))?;
    put_word(out, " ")?;
    put_picked(out, index.find(asked.port, &asked.zone))
}

fn put_picked(out: &mut String, block: Option<u32>) -> Result<(), CaseFault> {
    match block {
        Some(number) => put_number(out, u64::from(number)),
        None => put_word(out, "none"),
    }
}

// Blocks with `;` between them, of keys with `,` between them; `-` has no block.
fn read_blocks(alloc: Global, field: &str) -> Result<Blocks, CaseFault> {
    let mut blocks = Blocks::new(alloc);
    if field == "-" {
        return Ok(blocks);
    }
    for block in field.split(';') {
        blocks.push(read_block(alloc, block)?)?;
    }
    Ok(blocks)
}

fn read_block(alloc: Global, field: &str) -> Result<Block, CaseFault> {
    let mut keys = BlockKeys::new(alloc);
    for key in field.split(',') {
        keys.push(read_key(alloc, key)?)?;
    }
    let directives = Directives::new(alloc);
    Ok(Block { keys, directives })
}

// A port, and a name in wire format: `53:00`.
fn read_key(alloc: Global, field: &str) -> Result<BlockKey, CaseFault> {
    let Some((port, zone)) = field.split_once(':') else {
        return Err(CaseFault::Bad);
    };
    let Ok(port) = port.parse::<u16>() else {
        return Err(CaseFault::Bad);
    };
    let zone = read_name(alloc, zone)?;
    Ok(BlockKey {
        zone,
        port,
        line: 1,
    })
}
