ghost use Rattle.std.specs.Prelude.{◌≡◌, ◌≤◌, ◌<◌, ◌∷◌, None, length, take, slice_get, IfOk, OnOk};
ghost use Rattle.std.specs.Option.{option_map};
ghost use Rattle.dns_data.specs.declared.limit.TheConstants as limits;
ghost use Rattle.corefile_blocks.specs.Blocks.{wants_of};
ghost use Rattle.corefile_blocks.specs.LineForms.{nesting};
ghost use Rattle.corefile_blocks.specs.PlacedLines.{stream_of};
ghost use Rattle.corefile_blocks.specs.Readable.{IsReadable};
ghost use Rattle.corefile_blocks.specs.Reader.{reading_of};
ghost use Rattle.corefile_blocks.specs.Seeking.{Comes, Seeks, Starts, first_missing, has_file};
ghost use Rattle.corefile_blocks.specs.Seeking.{lacked, lacked_import};

use crate::forms::form_at;
use crate::parts::import_name;
use crate::place::LineForm;
use crate::reader::Reader;
use crate::reading::beginning;
use crate::shared::{LineList, SharedLines};
use crate::stack::{Frame, Taken, next_line, put};
use crate::{Bundle, WordsFault};
use corefile_words::{WordLines, read_words};
use dns_data::limit::{IMPORT_DEPTH, LINES};
use dns_data::{Copies, NoMemory, Seq, Text};
use std::alloc::Global;

/// Finds the files that a bundle wants while it gets them. What was read before a file was there
/// isn't read again behind it.
#[derive(Debug, Drop)]
pub struct Seeker {
    reader: Reader,
    /// How many more lines may be taken.
    left: usize,
    /// So many of the names that were read, from the first on, are files that the bundle has.
    seen: usize,
}

/// What comes of the next line: it was taken, or it imports a file that isn't there, or there is
/// none.
#[derive(Debug, Drop)]
enum Next {
    Line,
    File(Text),
    End,
}

impl Seeker {
    /// Begins with the Corefile of a bundle.
    pub fn new(alloc: Global, bundle: &Bundle) -> Result<Seeker, NoMemory>
        requires { IsReadable bundle.now }
        ensures { IfOk result (λ seeker. Seeks bundle.now seeker) }
    {
        match read_words(alloc, bundle.conf.as_slice(), bundle.env.as_slice()) {
            Ok(lines) => Ok(Seeker::over(alloc, lines)?),
            Err(fault) => match fault {
                WordsFault::NoMemory => Err(NoMemory),
                _ => Ok(Seeker::over(alloc, Seq::new(alloc))?),
            },
        }
    }

    // Before the first of these lines.
    fn over(alloc: Global, lines: WordLines) -> Result<Seeker, NoMemory>
        ensures { IfOk result (λ seeker. Starts lines seeker) }
    {
        Ok(Seeker {
            reader: beginning(alloc, lines)?,
            left: LINES,
            seen: 0,
        })
    }

    /// The first file that the bundle wants and doesn't have. The bundle is that of the call
    /// before, or the same with files more.
    pub fn next(&mut self, alloc: Global, bundle: &Bundle) -> Result<Option<Text>, NoMemory>
        requires readable { IsReadable bundle.now }
        requires seeks { Seeks bundle.now self.old }
        ensures name { IfOk result
            (λ name. name ≡ first_missing bundle.now (wants_of bundle.now)) }
        ensures seeks { OnOk result (Seeks bundle.now self.new) }
    {
        loop {
            self.seen = known(bundle, self.reader.named.as_slice(), self.seen);
            if let Some(name) = self.reader.named.as_slice().get(self.seen) {
                return Ok(Some(name.copy(alloc)?));
            }
            match self.go_on(alloc, bundle)? {
                Next::Line => {}
                Next::File(name) => return Ok(Some(name)),
                Next::End => return Ok(None),
            }
        }
    }

    // Takes the next line, where all files that were named are there.
    fn go_on(&mut self, alloc: Global, bundle: &Bundle) -> Result<Next, NoMemory>
        requires readable { IsReadable bundle.now }
        requires seeks { Seeks bundle.now self.old }
        requires there { first_missing bundle.now self.old.reader.named ≡ None }
        ensures { IfOk result (λ next. Comes bundle.now self.old self.new next) }
    {
        let Some(taken) = next_line(&mut self.reader.frames)? else {
            self.reader.frames = Seq::new(alloc);
            return Ok(Next::End);
        };
        if self.left == 0 {
            self.reader.frames = Seq::new(alloc);
            return Ok(Next::End);
        }
        if let Some(name) = lacked(&self.reader, bundle, &taken) {
            let name = Text::from_str(alloc, name)?;
            put_back(alloc, &mut self.reader.frames, taken)?;
            return Ok(Next::File(name));
        }
        self.left -= 1;
        if let Some(_) = self.reader.take(alloc, bundle, 0, &taken)? {
            self.reader.frames = Seq::new(alloc);
            return Ok(Next::Line);
        }
        Ok(Next::Line)
    }
}

// How many of these names, from the first on, are files of a bundle, where so many are.
fn known(bundle: &Bundle, names: &[Text], from: usize) -> usize
    requires inside { from ≤ length names.now }
    requires known { first_missing bundle.now (take from names.now) ≡ None }
    ensures inside { result ≤ length names.now }
    ensures known { first_missing bundle.now (take result names.now) ≡ None }
    ensures next { first_missing bundle.now names.now ≡ slice_get names.now result }
{
    let mut at = from;
    while let Some(name) = names.get(at) {
        if !has_file(bundle, name.as_str()) {
            return at;
        }
        at += 1;
    }
    at
}

fn has_file(bundle: &Bundle, name: &str) -> bool
    ensures { result ≡ has_file bundle.now name.now }
{
    bundle
        .files
        .as_slice()
        .iter()
        .any(|file| name == file.name.as_str())
}

// The file that a line imports, where the bundle doesn't have it.
fn lacked<'a>(reader: &Reader, bundle: &Bundle, taken: &'a Taken) -> Option<&'a str>
    requires { nesting reader.now.place < limits.LINES }
    ensures { option_map (λ name. name.now) result
        ≡ lacked bundle.now (reading_of reader.now) taken.now }
{
    match form_at(reader.place, taken.line.words.as_slice()) {
        LineForm::Import => lacked_import(reader, bundle, taken),
        _ => None,
    }
}

fn lacked_import<'a>(reader: &Reader, bundle: &Bundle, taken: &'a Taken) -> Option<&'a str>
    ensures { option_map (λ name. name.now) result
        ≡ lacked_import bundle.now (reading_of reader.now) taken.now }
{
    if IMPORT_DEPTH as u32 <= taken.depth {
        return None;
    }
    let name = import_name(taken.line.words.as_slice());
    if reader.snippets.find(name.as_bytes()).is_some() {
        return None;
    }
    if has_file(bundle, name) {
        return None;
    }
    Some(name)
}

// Puts a line in front again.
fn put_back(alloc: Global, frames: &mut Seq<Frame>, taken: Taken) -> Result<(), NoMemory>
    ensures { OnOk result (stream_of frames.new ≡ taken ∷ stream_of frames.old) }
{
    let Taken {
        line,
        number,
        depth,
    } = taken;
    let mut lines = LineList::new(alloc);
    lines.push(line)?;
    put(frames, SharedLines::of(alloc, lines)?, number, depth)
}
