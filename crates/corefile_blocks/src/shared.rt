ghost use Rattle.std.specs.Prelude.{◌≡◌, [], ◌∷◌, ◌++◌, ◌+◌, ◌<◌, ◌^◌, IfOk, OnSome, OnOk};
ghost use Rattle.std.specs.Prelude.{option_map, slice_get};
ghost use Rattle.corefile_blocks.specs.Blocks.{snippet_of};

use corefile_words::{WordLine, WordLines};
use dns_data::{Bytes, NoMemory};
use std::alloc::Global;
use std::marker::Model;
use std::rc::Rc;

/// Lines of words, each of which may stand in several lists.
#[derive(Debug, Drop)]
pub(crate) struct LineList {
    items: Vec<Rc<WordLine>>,
}

impl Model for LineList {
    ghost use Rattle.std.specs.Prelude.{List, map};
    ghost use Rattle.corefile_words.specs.declared.word.WordLine.{WordLine};

    ghost Value = { List WordLine };

    ghost view = { λ l. map (λ line. line.value) l.items.items };
}

impl LineList {
    pub fn new(alloc: Global) -> LineList
        ensures { result ≡ [] }
    {
        LineList {
            items: Vec::new(alloc),
        }
    }

    /// The lines of a text, which are moved and not copied.
    pub fn of(alloc: Global, mut lines: WordLines) -> Result<LineList, NoMemory>
        ensures { IfOk result (λ l. l ≡ lines) }
    {
        let mut items = Vec::with_capacity(alloc, lines.len())?;
        while let Some(line) = lines.pop() {
            items.push(Rc::new(alloc, line)?)?;
        }
        items.reverse();
        Ok(LineList { items })
    }

    pub fn push(&mut self, line: Rc<WordLine>) -> Result<(), NoMemory>
        ensures { OnOk result (self.new ≡ self.old ++ line.value ∷ []) }
    {
        self.items.push(line)?;
        Ok(())
    }

    pub fn get(&self, index: usize) -> Option<&Rc<WordLine>>
        ensures line { option_map (λ line. line.now.value) result ≡ slice_get self.now index }
        ensures small { OnSome result (index + 1 < 2 ^ 64) }
    {
        self.items.get(index)
    }
}

/// A list of lines that several may hold.
#[derive(Debug, Drop)]
pub(crate) struct SharedLines {
    lines: Rc<LineList>,
}

impl Model for SharedLines {
    ghost use Rattle.std.specs.Prelude.{List};
    ghost use Rattle.corefile_words.specs.declared.word.WordLine.{WordLine};

    ghost Value = { List WordLine };

    ghost view = { λ s. s.lines.value };
}

impl SharedLines {
    pub fn of(alloc: Global, lines: LineList) -> Result<SharedLines, NoMemory>
        ensures { IfOk result (λ s. s ≡ lines) }
    {
        Ok(SharedLines {
            lines: Rc::new(alloc, lines)?,
        })
    }

    pub fn get(&self, index: usize) -> Option<&Rc<WordLine>>
        ensures line { option_map (λ line. line.now.value) result ≡ slice_get self.now index }
        ensures small { OnSome result (index + 1 < 2 ^ 64) }
    {
        self.lines.get(index)
    }

    /// The same lines, of which none is copied.
    pub fn share(&self) -> Result<SharedLines, NoMemory>
        ensures { IfOk result (λ s. s ≡ self.now) }
    {
        Ok(SharedLines {
            lines: self.lines.clone()?,
        })
    }
}

/// Lines that have a name: a snippet, or a file.
#[derive(Debug, Drop)]
pub(crate) struct Snippet {
    pub name: Bytes,
    pub lines: SharedLines,
}

/// The lines of a name.
pub(crate) fn snippet_of<'a>(snippets: &'a [Snippet], name: &[u8]) -> Option<&'a Snippet>
    ensures { option_map (λ snippet. snippet.now) result ≡ snippet_of name.now snippets.now }
{
    for snippet in snippets {
        if name == snippet.name.as_slice() {
            return Some(snippet);
        }
    }
    None
}
