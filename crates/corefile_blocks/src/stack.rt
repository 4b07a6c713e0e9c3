ghost use Rattle.std.specs.Prelude.{◌≡◌, [], ◌∷◌, ◌++◌, Some, IfOk, OnOk, MatchOption};
ghost use Rattle.corefile_blocks.specs.PlacedLines.{placed, stream_of};

use crate::shared::SharedLines;
use corefile_words::WordLine;
use dns_data::{NoMemory, Seq};
use std::marker::Model;
use std::rc::Rc;

/// Lines that are being read, from `at` on.
#[derive(Debug, Drop)]
pub(crate) struct Frame {
    pub lines: SharedLines,
    pub at: usize,
    /// The line of the Corefile whose import brought them; none for the Corefile's own.
    pub number: Option<u32>,
    /// How many imports brought them.
    pub depth: u32,
}

/// A line that was taken.
#[derive(Debug, Drop)]
pub(crate) struct Taken {
    pub line: Rc<WordLine>,
    /// The number of the line in the Corefile that it is, or whose import brought it.
    pub number: u32,
    /// How many imports brought it.
    pub depth: u32,
}

impl Model for Taken {
    ghost use Rattle.corefile_blocks.specs.PlacedLines.{PlacedLine};

    ghost Value = { PlacedLine };

    ghost view = { λ t. record { line = t.line.value; number = t.number; depth = t.depth } };
}

/// Takes the next line.
pub(crate) fn next_line(frames: &mut Seq<Frame>) -> Result<Option<Taken>, NoMemory>
    ensures { IfOk result (λ taken. MatchOption taken
        (stream_of frames.old ≡ [])
        (λ line. stream_of frames.old ≡ line ∷ stream_of frames.new)) }
{
    while let Some(mut frame) = frames.pop() {
        if let Some(line) = frame.lines.get(frame.at) {
            let taken = Taken {
                line: line.clone()?,
                number: frame.number.unwrap_or(line.number),
                depth: frame.depth,
            };
            frame.at += 1;
            frames.push(frame)?;
            return Ok(Some(taken));
        }
    }
    Ok(None)
}

/// Puts lines in front, which the import in a line of this number and depth brings.
pub(crate) fn put(
    frames: &mut Seq<Frame>,
    lines: SharedLines,
    number: u32,
    depth: u32,
) -> Result<(), NoMemory>
    ensures { OnOk result (stream_of frames.new
        ≡ placed number depth lines ++ stream_of frames.old) }
{
    frames.push(Frame {
        lines,
        at: 0,
        number: Some(number),
        depth,
    })?;
    Ok(())
}
