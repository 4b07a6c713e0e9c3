//! The blocks of a Corefile: `blocks CONF PORT ENV FILES`.

use crate::case::Case;
use crate::checks::read_bundle;
use crate::fields::put_name;
use case_fields::{CaseFault, put_bytes, put_number, put_word};
use corefile_blocks::read_blocks;
use dns_data::{Block, BlockKey, Blocks, Directive, Line, Texts};
use std::alloc::Global;

/// `ok` and the blocks, each its keys and directives with `;` behind them, or `fault`.
pub fn blocks(alloc: Global, case: &Case<'_>, out: &mut String) -> Result<(), CaseFault> {
    let (bundle, port) = read_bundle(alloc, case)?;
    if !bundle.is_readable() {
        return Err(CaseFault::Bad);
    }
    match read_blocks(alloc, &bundle, port) {
        Ok(blocks) => put_blocks(alloc, out, &blocks),
        Err(_) => put_word(out, "fault"),
    }
}

fn put_blocks(alloc: Global, out: &mut String, blocks: &Blocks) -> Result<(), CaseFault> {
    put_word(out, "ok")?;
    for block in blocks.as_slice() {
        put_block(alloc, out, block)?;
    }
    Ok(())
}

fn put_block(alloc: Global, out: &mut String, block: &Block) -> Result<(), CaseFault> {
    for key in block.keys.as_slice() {
        put_key(alloc, out, key)?;
    }
    for directive in block.directives.as_slice() {
        put_directive(alloc, out, directive)?;
    }
    put_word(out, ";")
}

// A zone, a port and a line: ` 00:53@1`.
fn put_key(alloc: Global, out: &mut String, key: &BlockKey) -> Result<(), CaseFault> {
    put_word(out, " ")?;
    put_name(alloc, out, &key.zone)?;
    put_word(out, ":")?;
    put_number(out, u64::from(key.port))?;
    put_line(out, key.line)
}

// A name with its words and its line, and in brackets each line of its body.
fn put_directive(alloc: Global, out: &mut String, read: &Directive) -> Result<(), CaseFault> {
    put_word(out, " ")?;
    put_bytes(alloc, out, read.name.as_str().as_bytes())?;
    if !read.args.as_slice().is_empty() {
        put_word(out, ",")?;
    }
    put_words(alloc, out, &read.args)?;
    put_line(out, read.line)?;
    for line in read.body.as_slice() {
        put_body_line(alloc, out, line)?;
    }
    Ok(())
}

fn put_body_line(alloc: Global, out: &mut String, line: &Line) -> Result<(), CaseFault> {
    put_word(out, " [")?;
    put_words(alloc, out, &line.words)?;
    put_line(out, line.number)?;
    put_word(out, "]")
}

// Words with commas between them.
fn put_words(alloc: Global, out: &mut String, words: &Texts) -> Result<(), CaseFault> {
    for (index, word) in words.as_slice().iter().enumerate() {
        if index != 0 {
            put_word(out, ",")?;
        }
        put_bytes(alloc, out, word.as_str().as_bytes())?;
    }
    Ok(())
}

fn put_line(out: &mut String, line: u32) -> Result<(), CaseFault> {
    put_word(out, "@")?;
    put_number(out, u64::from(line))
}
