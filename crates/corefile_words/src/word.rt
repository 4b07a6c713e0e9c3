use dns_data::{Copies, NoMemory, Seq, Text};
use std::alloc::Global;

/// A variable of the environment. Where two have one name, the first counts.
#[derive(Debug, Drop)]
pub struct Pair {
    pub name: Text,
    pub value: Text,
}

pub type Pairs = Seq<Pair>;

/// A word, without its quotes and with its variables put in.
#[derive(Debug, Drop)]
pub struct Word {
    pub text: Text,
    /// Whether it is a `{` or a `}` that the text itself has, without quotes.
    pub brace: bool,
}

pub type Words = Seq<Word>;

/// The words of a line.
#[derive(Debug, Drop)]
pub struct WordLine {
    pub words: Words,
    /// The number of the line in the text, from 1.
    pub number: u32,
}

pub type WordLines = Seq<WordLine>;

impl Copies for Pair {
    fn copy(&self, alloc: Global) -> Result<Pair, NoMemory> {
        Ok(Pair {
            name: self.name.copy(alloc)?,
            value: self.value.copy(alloc)?,
        })
    }
}

impl Copies for Word {
    fn copy(&self, alloc: Global) -> Result<Word, NoMemory> {
        Ok(Word {
            text: self.text.copy(alloc)?,
            brace: self.brace,
        })
    }
}

impl Copies for WordLine {
    fn copy(&self, alloc: Global) -> Result<WordLine, NoMemory> {
        Ok(WordLine {
            words: self.words.copy(alloc)?,
            number: self.number,
        })
    }
}
