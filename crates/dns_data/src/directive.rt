use crate::{Copies, Lines, NoMemory, Text, Texts};
use std::alloc::Global;

/// A line of the body of a directive: its words, one or more.
#[derive(Debug, Drop)]
pub struct Line {
    pub words: Texts,
    /// The number of the line in the Corefile, from 1.
    pub number: u32,
}

/// A directive of a block of a Corefile: its name, the words behind it, and the lines of its body,
/// if it has one.
#[derive(Debug, Drop)]
pub struct Directive {
    pub name: Text,
    pub args: Texts,
    pub body: Lines,
    /// The number of its line in the Corefile, from 1.
    pub line: u32,
}

impl Copies for Line {
    fn copy(&self, alloc: Global) -> Result<Line, NoMemory> {
        Ok(Line {
            words: self.words.copy(alloc)?,
            number: self.number,
        })
    }
}

impl Copies for Directive {
    fn copy(&self, alloc: Global) -> Result<Directive, NoMemory> {
        Ok(Directive {
            name: self.name.copy(alloc)?,
            args: self.args.copy(alloc)?,
            body: self.body.copy(alloc)?,
            line: self.line,
        })
    }
}
