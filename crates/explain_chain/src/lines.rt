//! The lines in front of those of a chain's steps, theirs, and the last one.
ghost use Rattle.std.specs.Prelude.{◌≡◌, ◌++◌, codes, map, IfOk, OnOk};
ghost use Rattle.hex.specs.Hex.{encode_lower};
ghost use Rattle.chain_trail.specs.Lines.{reached_text};
ghost use Rattle.explain_chain.specs.Explaining.{block_line, served_lines, silence_text};

use chain_meaning::{Served, Silence};
use chain_trail::Reached;
use dns_data::{NoMemory, Text, Texts};
use std::alloc::Global;

/// By which key a block was picked.
pub(crate) fn block_line(alloc: Global, line: Option<u32>) -> Result<Text, NoMemory>
    ensures { IfOk result (λ text. text ≡ block_line line) }
{
    match line {
        Some(line) => Ok(Text::of(format!(in alloc; "block line {line}")?)),
        None => Text::from_str(alloc, "block none"),
    }
}

/// Adds the lines of steps that were reached.
pub(crate) fn push_reached(
    alloc: Global,
    lines: &mut Texts,
    trail: &[Reached],
) -> Result<(), NoMemory>
    ensures { OnOk result (lines.new ≡ lines.old ++ map reached_text trail.now) }
{
    let Some((step, rest)) = trail.split_first() else {
        return Ok(());
    };
    lines.push(step.text(alloc)?)?;
    push_reached(alloc, lines, rest)
}

/// Adds the line of what was sent. For want of memory nothing is said.
pub(crate) fn push_served(alloc: Global, lines: &mut Texts, served: &Served) -> Result<(), NoMemory>
    ensures { OnOk result (lines.new ≡ lines.old ++ served_lines served.now) }
{
    match served {
        Served::Reply(bytes) => lines.push(reply_line(alloc, bytes.as_slice())?),
        Served::Silent(silence) => lines.push(Text::from_str(alloc, silence_text(*silence))?),
        Served::NoMemory => Ok(()),
    }
}

// Why nothing was sent.
fn silence_text(silence: Silence) -> &'static str
    ensures { result.now ≡ silence_text silence }
{
    match silence {
        Silence::Short => "silent short",
        Silence::Response => "silent response",
        Silence::Dropped => "silent dropped",
    }
}

// The bytes of a reply in small hexadecimal digits.
fn reply_line(alloc: Global, bytes: &[u8]) -> Result<Text, NoMemory>
    ensures { IfOk result (λ text. text ≡ codes "reply " ++ encode_lower bytes.now) }
{
    let digits = hex::encode(alloc, bytes)?;
    let mut line = Text::from_str(alloc, "reply ")?;
    line.append(digits.as_str())?;
    Ok(line)
}
