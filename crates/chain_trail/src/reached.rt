ghost use Rattle.std.specs.Prelude.{◌≡◌, ◌++◌, string_bytes, IfOk, OnOk};
ghost use Rattle.std.specs.Fmt.{decimal};
ghost use Rattle.chain_trail.specs.Lines.{reached_text};

use dns_data::{Copies, NoMemory, Seq, Text};
use std::alloc::Global;
use std::fmt::Write;

/// A step of a chain: the line and the name of the first directive that makes it.
#[derive(Debug, Drop)]
pub struct StepName {
    /// The number of the line in the Corefile, from 1; 0 for the end of a chain.
    pub line: u32,
    pub name: Text,
}

/// A step that a query reached, and what it said.
#[derive(Debug, Drop)]
pub struct Reached {
    pub line: u32,
    pub name: Text,
    pub say: Text,
}

pub type StepNames = Seq<StepName>;

/// The steps that a query reached, in that order.
pub type Trail = Seq<Reached>;

impl Reached {
    /// Its line: `NAME line L: SAY`, and `end of chain` for the end.
    pub fn text(&self, alloc: Global) -> Result<Text, NoMemory>
        ensures { IfOk result (λ text. text ≡ reached_text self.now) }
    {
        if self.line == 0 {
            return self.name.copy(alloc);
        }
        let mut text = self.name.copy(alloc)?;
        text.append(" line ")?;
        let line = line_text(alloc, self.line)?;
        text.append(line.as_str())?;
        text.append(": ")?;
        text.append(self.say.as_str())?;
        Ok(text)
    }
}

// A number of a line in decimal digits.
fn line_text(alloc: Global, line: u32) -> Result<Text, NoMemory>
    ensures { IfOk result (λ text. text ≡ decimal line) }
{
    let mut text = String::with_capacity(alloc, 10)?;
    put_line(&mut text, line)?;
    Ok(Text::of(text))
}

fn put_line(text: &mut String, line: u32) -> Result<(), NoMemory>
    ensures { OnOk result (string_bytes text.new ≡ string_bytes text.old ++ decimal line) }
{
    match write!(text, "{line}") {
        Ok(()) => Ok(()),
        Err(_) => Err(NoMemory),
    }
}
