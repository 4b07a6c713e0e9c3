ghost use Rattle.std.specs.Prelude.{◌≡◌, ◌<◌, ◌≤◌, ◌+◌, [], None, unwrap_or, IfOk, OnOk};
ghost use Rattle.dns_data.specs.declared.limit.TheConstants as limits;
ghost use Rattle.corefile_blocks.specs.Blocks.{add_directive, begin_snippet, block_line};
ghost use Rattle.corefile_blocks.specs.Blocks.{directive, header, opening_line, step};
ghost use Rattle.corefile_blocks.specs.Blocks.{add_body_line, add_with_body, end_snippet};
ghost use Rattle.corefile_blocks.specs.Blocks.{keep_line};
ghost use Rattle.corefile_blocks.specs.LineForms.{nesting, opened, snippet_name};
ghost use Rattle.corefile_blocks.specs.Readable.{IsReadable};
ghost use Rattle.corefile_blocks.specs.Reader.{AreTexts, Does, Follows, reading_of};

use crate::forms::{form_at, opened, snippet_name};
use crate::keys::header_keys;
use crate::parts::{directive, directive_count, push_body_line, push_directive, texts};
use crate::place::{LineForm, Place};
use crate::shared::{LineList, SharedLines, Snippet};
use crate::snippets::Snippets;
use crate::stack::{Frame, Taken};
use crate::wanted::add_files;
use crate::{BlockWhy, Bundle, CorefileFault};
use corefile_words::Word;
use dns_data::limit::{BLOCKS, DIRECTIVES};
use dns_data::{Block, Blocks, Bytes, Limit, Line, NoMemory, Seq, Texts};
use std::alloc::Global;
use std::mem;

/// The snippet whose lines are being read.
#[derive(Debug, Drop)]
pub(crate) struct Kept {
    pub name: Bytes,
    pub lines: LineList,
}

/// What was read so far, and the lines that are still to be read.
#[derive(Debug, Drop)]
pub(crate) struct Reader {
    pub place: Place,
    pub blocks: Blocks,
    pub snippets: Snippets,
    pub kept: Kept,
    pub named: Texts,
    /// The files that were imported.
    pub texts: Seq<Snippet>,
    pub frames: Seq<Frame>,
}

impl Reader {
    /// Reads a line, and says what fault it has.
    #[tactic(auto, unfolding(crate::specs::Blocks::step))]
    pub fn take(
        &mut self,
        alloc: Global,
        bundle: &Bundle,
        port: u16,
        taken: &Taken,
    ) -> Result<Option<CorefileFault>, NoMemory>
        requires bundle { IsReadable bundle.now }
        requires texts { AreTexts bundle.now self.old.texts }
        requires nesting { nesting self.old.place < limits.LINES }
        ensures follows { IfOk result (λ fault. Follows
            (step bundle.now port (reading_of self.old) taken.now) self.old self.new fault) }
        ensures texts { OnOk result (AreTexts bundle.now self.new.texts) }
        ensures nesting { OnOk result (nesting self.new.place ≤ nesting self.old.place + 1) }
    {
        let words = taken.line.words.as_slice();
        let line = taken.number;
        match form_at(self.place, words) {
            LineForm::Refused(why) => Ok(Some(CorefileFault::Block { line, why })),
            LineForm::Import => self.import(alloc, bundle, taken),
            LineForm::SnippetHeader => self.begin_snippet(alloc, line, words),
            LineForm::SnippetLine { nested } => self.keep(taken, nested),
            LineForm::SnippetEnd => self.end_snippet(alloc),
            LineForm::Header => self.begin_block(alloc, port, line, words),
            LineForm::BlockEnd => Ok(self.go_to(Place::Top)),
            LineForm::Directive => self.add_directive(alloc, self.place, line, words),
            LineForm::DirectiveHeader => self.add_with_body(alloc, line, words),
            LineForm::BodyLine => self.add_body_line(alloc, line, words),
            LineForm::BodyEnd => Ok(self.go_to(Place::Block {
                line: block_line(self.place),
            })),
        }
    }

    // The next line stands there.
    fn go_to(&mut self, place: Place) -> Option<CorefileFault>
        ensures none { result ≡ None }
        ensures place { self.new ≡ record self.old { place = place } }
    {
        self.place = place;
        None
    }

    fn begin_snippet(
        &mut self,
        alloc: Global,
        line: u32,
        words: &[Word],
    ) -> Result<Option<CorefileFault>, NoMemory>
        ensures step { IfOk result (λ fault. Does
            (begin_snippet (reading_of self.old) line (snippet_name words.now))
            self.old self.new fault) }
        ensures nesting { OnOk result (nesting self.new.place ≤ nesting self.old.place) }
    {
        let why = BlockWhy::SnippetName;
        let refused = CorefileFault::Block { line, why };
        let Some(name) = snippet_name(words) else {
            return Ok(Some(refused));
        };
        if name.len() == 0 {
            return Ok(Some(refused));
        }
        if self.snippets.find(name).is_some() {
            return Ok(Some(refused));
        }
        self.kept = Kept {
            name: Bytes::from_slice(alloc, name)?,
            lines: LineList::new(alloc),
        };
        self.place = Place::Snippet { line, nested: 0 };
        Ok(None)
    }

    fn keep(&mut self, taken: &Taken, nested: u32) -> Result<Option<CorefileFault>, NoMemory>
        ensures step { IfOk result (λ fault. Does
            (keep_line (reading_of self.old) taken.now nested) self.old self.new fault) }
        ensures nesting { OnOk result (nesting self.new.place ≡ nested) }
    {
        self.kept.lines.push(taken.line.clone()?)?;
        self.place = Place::Snippet {
            line: opening_line(self.place),
            nested,
        };
        Ok(None)
    }

    fn end_snippet(&mut self, alloc: Global) -> Result<Option<CorefileFault>, NoMemory>
        ensures step { IfOk result (λ fault. Does
            (end_snippet (reading_of self.old)) self.old self.new fault) }
        ensures nesting { OnOk result (nesting self.new.place ≤ nesting self.old.place) }
    {
        let kept = mem::replace(&mut self.kept, Kept::none(alloc));
        let Kept { name, lines } = kept;
        let lines = SharedLines::of(alloc, lines)?;
        self.snippets.push(alloc, Snippet { name, lines })?;
        self.place = Place::Top;
        Ok(None)
    }

    fn begin_block(
        &mut self,
        alloc: Global,
        port: u16,
        line: u32,
        words: &[Word],
    ) -> Result<Option<CorefileFault>, NoMemory>
        ensures step { IfOk result (λ fault. Does
            (header (reading_of self.old) port line (unwrap_or (opened words.now) []))
            self.old self.new fault) }
        ensures nesting { OnOk result (nesting self.new.place ≤ nesting self.old.place) }
    {
        if BLOCKS <= self.blocks.len() {
            return Ok(Some(CorefileFault::TooMany {
                what: Limit::Blocks,
                number: BLOCKS as u64 + 1,
            }));
        }
        let header = header_keys(alloc, port, line, before_brace(words))?;
        self.blocks.push(Block {
            keys: header.keys,
            directives: Seq::new(alloc),
        })?;
        self.place = Place::Block { line };
        match header.fault {
            Some(why) => Ok(Some(CorefileFault::Block { line, why })),
            None => Ok(None),
        }
    }

    fn add_with_body(
        &mut self,
        alloc: Global,
        line: u32,
        words: &[Word],
    ) -> Result<Option<CorefileFault>, NoMemory>
        ensures step { IfOk result (λ fault. Does
            (add_with_body (reading_of self.old) line words.now) self.old self.new fault) }
        ensures nesting { OnOk result (nesting self.new.place ≤ nesting self.old.place) }
    {
        let block = block_line(self.place);
        self.add_directive(
            alloc,
            Place::Body { block, line },
            line,
            before_brace(words),
        )
    }

    fn add_directive(
        &mut self,
        alloc: Global,
        place: Place,
        line: u32,
        words: &[Word],
    ) -> Result<Option<CorefileFault>, NoMemory>
        requires { nesting place ≤ nesting self.old.place }
        ensures step { IfOk result (λ fault. Does
            (add_directive (reading_of self.old) place (directive line words.now))
            self.old self.new fault) }
        ensures nesting { OnOk result (nesting self.new.place ≤ nesting self.old.place) }
    {
        if DIRECTIVES <= directive_count(self.blocks.as_slice()) {
            return Ok(Some(CorefileFault::TooMany {
                what: Limit::Directives,
                number: DIRECTIVES as u64 + 1,
            }));
        }
        let made = directive(alloc, line, words)?;
        add_files(
            alloc,
            &mut self.named,
            made.name.as_str(),
            made.args.as_slice(),
        )?;
        push_directive(&mut self.blocks, made)?;
        self.place = place;
        Ok(None)
    }

    fn add_body_line(
        &mut self,
        alloc: Global,
        line: u32,
        words: &[Word],
    ) -> Result<Option<CorefileFault>, NoMemory>
        ensures step { IfOk result (λ fault. Does
            (add_body_line (reading_of self.old) line words.now) self.old self.new fault) }
        ensures nesting { OnOk result (nesting self.new.place ≤ nesting self.old.place) }
    {
        let words = texts(alloc, words)?;
        push_body_line(
            &mut self.blocks,
            Line {
                words,
                number: line,
            },
        )?;
        Ok(None)
    }
}

impl Kept {
    /// No snippet.
    pub fn none(alloc: Global) -> Kept
        ensures name { result.name ≡ [] }
        ensures lines { result.lines ≡ [] }
    {
        Kept {
            name: Bytes::new(alloc),
            lines: LineList::new(alloc),
        }
    }
}

// The words before the `{` that ends the line.
fn before_brace(words: &[Word]) -> &[Word]
    ensures { result.now ≡ unwrap_or (opened words.now) [] }
{
    match opened(words) {
        Some(front) => front,
        None => &[],
    }
}

// The line that opened the block of this place.
fn block_line(place: Place) -> u32
    ensures { result ≡ block_line place }
{
    match place {
        Place::Top => 0,
        Place::Block { line } => line,
        Place::Body { block, line: _ } => block,
        Place::Snippet { line, nested: _ } => line,
    }
}

// The line that opened what this place is in.
fn opening_line(place: Place) -> u32
    ensures { result ≡ opening_line place }
{
    match place {
        Place::Top => 0,
        Place::Block { line } => line,
        Place::Body { block: _, line } => line,
        Place::Snippet { line, nested: _ } => line,
    }
}
