ghost use Rattle.std.specs.Prelude.{◌≡◌, [], Ok, IfOk, IfSome};
ghost use Rattle.corefile_blocks.specs.Blocks.{ReadsBlocks, all_of, beginning, end_fault};
ghost use Rattle.corefile_blocks.specs.Blocks.{read_lines};
ghost use Rattle.corefile_blocks.specs.Blocks.{reading_of, wants_of};
ghost use Rattle.corefile_blocks.specs.PlacedLines.{own_lines, stream_of};
ghost use Rattle.corefile_blocks.specs.Readable.{IsReadable};
ghost use Rattle.corefile_blocks.specs.Reader.{IsTold, reading_of as read_by};

use crate::double::double_key;
use crate::place::Place;
use crate::reader::{Kept, Reader};
use crate::shared::{LineList, SharedLines};
use crate::snippets::Snippets;
use crate::stack::{Frame, next_line};
use crate::wanted::each_once;
use crate::{BlockWhy, Bundle, CorefileFault, WordsFault};
use corefile_words::{WordLines, read_words};
use dns_data::limit::LINES;
use dns_data::{Blocks, Limit, NoMemory, Seq, Texts};
use std::alloc::Global;
use std::marker::Model;

/// All that was read, and the fault that ended it.
#[derive(Debug, Drop)]
struct Ended {
    blocks: Blocks,
    named: Texts,
    fault: Option<CorefileFault>,
}

impl Model for Ended {
    ghost use Rattle.corefile_blocks.specs.Blocks.{EndedData};

    ghost Value = { EndedData };

    ghost view = { λ e. record { blocks = e.blocks; named = e.named; fault = e.fault } };
}

/// The blocks of a bundle, with this port for keys that name none, or its first fault.
#[tactic(auto, unfolding(crate::specs::Blocks::blocks_of))]
pub fn read_blocks(alloc: Global, bundle: &Bundle, port: u16) -> Result<Blocks, CorefileFault>
    requires { IsReadable bundle.now }
    ensures { ReadsBlocks bundle.now port result }
{
    let ended = read(alloc, bundle, port)?;
    if let Some(line) = double_key(alloc, ended.blocks.as_slice())? {
        return Err(CorefileFault::DoubleKey { line });
    }
    match ended.fault {
        Some(fault) => Err(fault),
        None => Ok(ended.blocks),
    }
}

/// The files that a bundle names before its first fault, or in an import that is this fault since
/// its file is missing or has no words: each once, in order. A key that stands twice is no fault
/// here. So what is wanted of a bundle without files is what must be read first.
#[tactic(auto, unfolding(crate::specs::Blocks::wants_of))]
pub fn wants(alloc: Global, bundle: &Bundle) -> Result<Texts, NoMemory>
    requires { IsReadable bundle.now }
    ensures { IfOk result (λ names. names ≡ wants_of bundle.now) }
{
    each_once(alloc, read(alloc, bundle, 0)?.named.as_slice())
}

// All that a bundle says.
#[tactic(auto, unfolding(crate::specs::Blocks::reading_of))]
fn read(alloc: Global, bundle: &Bundle, port: u16) -> Result<Ended, NoMemory>
    requires { IsReadable bundle.now }
    ensures all { IfOk result (λ ended. ended ≡ reading_of bundle.now port) }
    ensures told { IfOk result (λ ended. IfSome ended.fault IsTold) }
{
    match read_words(alloc, bundle.conf.as_slice(), bundle.env.as_slice()) {
        Ok(lines) => read_lines(alloc, bundle, port, lines),
        Err(fault) => match fault {
            WordsFault::NoMemory => Err(NoMemory),
            _ => Ok(Ended {
                blocks: Seq::new(alloc),
                named: Seq::new(alloc),
                fault: Some(CorefileFault::Words(fault)),
            }),
        },
    }
}

// All that the lines of the Corefile say.
fn read_lines(
    alloc: Global,
    bundle: &Bundle,
    port: u16,
    lines: WordLines,
) -> Result<Ended, NoMemory>
    requires { IsReadable bundle.now }
    ensures all { IfOk result (λ ended. ended ≡ read_lines bundle.now port (Ok lines)) }
    ensures told { IfOk result (λ ended. IfSome ended.fault IsTold) }
{
    let mut reader = beginning(alloc, lines)?;
    let mut left = LINES;
    while let Some(taken) = next_line(&mut reader.frames)? {
        if left == 0 {
            let fault = CorefileFault::TooMany {
                what: Limit::Lines,
                number: LINES as u64 + 1,
            };
            return Ok(all_of(reader, Some(fault)));
        }
        left -= 1;
        if let Some(fault) = reader.take(alloc, bundle, port, &taken)? {
            return Ok(all_of(reader, Some(fault)));
        }
    }
    let fault = end_fault(reader.place);
    Ok(all_of(reader, fault))
}

/// Nothing was read yet of these lines.
pub(crate) fn beginning(alloc: Global, lines: WordLines) -> Result<Reader, NoMemory>
    ensures reading { IfOk result (λ reader. read_by reader ≡ beginning) }
    ensures lines { IfOk result (λ reader. stream_of reader.frames ≡ own_lines lines) }
    ensures texts { IfOk result (λ reader. reader.texts ≡ []) }
{
    let lines = SharedLines::of(alloc, LineList::of(alloc, lines)?)?;
    let mut frames = Seq::new(alloc);
    frames.push(Frame {
        lines,
        at: 0,
        number: None,
        depth: 0,
    })?;
    Ok(Reader {
        place: Place::Top,
        blocks: Seq::new(alloc),
        snippets: Snippets::new(alloc)?,
        kept: Kept::none(alloc),
        named: Seq::new(alloc),
        texts: Seq::new(alloc),
        frames,
    })
}

// What a reader has read, and the fault that ended it.
fn all_of(reader: Reader, fault: Option<CorefileFault>) -> Ended
    ensures { result ≡ all_of (read_by reader) fault }
{
    Ended {
        blocks: reader.blocks,
        named: reader.named,
        fault,
    }
}

// The fault of lines that end here.
fn end_fault(place: Place) -> Option<CorefileFault>
    ensures fault { result ≡ end_fault place }
    ensures told { IfSome result IsTold }
{
    let why = BlockWhy::OpenBlock;
    match place {
        Place::Top => None,
        Place::Block { line } => Some(CorefileFault::Block { line, why }),
        Place::Body { block: _, line } => Some(CorefileFault::Block { line, why }),
        Place::Snippet { line, nested: _ } => Some(CorefileFault::Block { line, why }),
    }
}
