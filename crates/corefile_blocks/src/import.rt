ghost use Rattle.std.specs.Prelude.{◌≡◌, ◌<◌, ◌^◌, length, option_map, Some, IfOk, IfSome, OnOk};
ghost use Rattle.std.specs.Prelude.{MatchResult};
ghost use Rattle.std.specs.List.{All};
ghost use Rattle.corefile_words.specs.{words_of};
ghost use Rattle.dns_data.specs.declared.limit.TheConstants as limits;
ghost use Rattle.corefile_blocks.specs.Blocks.{at_line, file_of, import, import_name, import_words};
ghost use Rattle.corefile_blocks.specs.Readable.{HasShortBytes, IsReadable};
ghost use Rattle.corefile_blocks.specs.Reader.{AreTexts, Follows, reading_of};

use crate::parts::import_name;
use crate::reader::Reader;
use crate::shared::{LineList, SharedLines, Snippet, snippet_of};
use crate::stack::{Taken, put};
use crate::{Bundle, CorefileFault, WordsFault};
use corefile_words::read_words;
use dns_data::limit::IMPORT_DEPTH;
use dns_data::{Bytes, FileText, NoMemory, Text};
use std::alloc::Global;

impl Reader {
    /// Puts the lines of a snippet or a file in the place of an import.
    pub fn import(
        &mut self,
        alloc: Global,
        bundle: &Bundle,
        taken: &Taken,
    ) -> Result<Option<CorefileFault>, NoMemory>
        requires bundle { IsReadable bundle.now }
        requires texts { AreTexts bundle.now self.old.texts }
        ensures follows { IfOk result (λ fault. Follows
            (import bundle.now (reading_of self.old) taken.now) self.old self.new fault) }
        ensures texts { OnOk result (AreTexts bundle.now self.new.texts) }
        ensures place { OnOk result (self.new.place ≡ self.old.place) }
    {
        let line = taken.number;
        if IMPORT_DEPTH as u32 <= taken.depth {
            return Ok(Some(CorefileFault::ImportLoop { line }));
        }
        let name = import_name(taken.line.words.as_slice());
        if let Some(snippet) = self.snippets.find(name.as_bytes()) {
            let lines = snippet.lines.share()?;
            put(&mut self.frames, lines, line, taken.depth + 1)?;
            return Ok(None);
        }
        self.named.push(Text::from_str(alloc, name)?)?;
        if let Some(text) = snippet_of(self.texts.as_slice(), name.as_bytes()) {
            let lines = text.lines.share()?;
            put(&mut self.frames, lines, line, taken.depth + 1)?;
            return Ok(None);
        }
        let Some(bytes) = file_of(bundle.files.as_slice(), name) else {
            return Ok(Some(CorefileFault::NoSnippet { line }));
        };
        self.import_bytes(alloc, bundle, name, bytes, taken)
    }

    // Puts the lines of a file in the place of an import, and keeps them.
    fn import_bytes(
        &mut self,
        alloc: Global,
        bundle: &Bundle,
        name: &str,
        bytes: &[u8],
        taken: &Taken,
    ) -> Result<Option<CorefileFault>, NoMemory>
        requires short { length bytes.now < 2 ^ 32 }
        requires depth { taken.now.depth < limits.IMPORT_DEPTH }
        requires file { file_of name.now bundle.now.files ≡ Some bytes.now }
        requires texts { AreTexts bundle.now self.old.texts }
        ensures follows { IfOk result (λ fault. Follows (import_words (reading_of self.old)
            taken.now (words_of bundle.now.env bytes.now)) self.old self.new fault) }
        ensures texts { OnOk result (AreTexts bundle.now self.new.texts) }
        ensures place { OnOk result (self.new.place ≡ self.old.place) }
    {
        let line = taken.number;
        match read_words(alloc, bytes, bundle.env.as_slice()) {
            Ok(lines) => {
                let lines = SharedLines::of(alloc, LineList::of(alloc, lines)?)?;
                put(&mut self.frames, lines.share()?, line, taken.depth + 1)?;
                self.texts.push(Snippet {
                    name: Bytes::from_slice(alloc, name.as_bytes())?,
                    lines,
                })?;
                Ok(None)
            }
            Err(fault) => Ok(Some(CorefileFault::Words(at_line(line, fault)?))),
        }
    }
}

// A fault of the words of a file, told at the line of the import.
fn at_line(line: u32, fault: WordsFault) -> Result<WordsFault, NoMemory>
    ensures line { IfOk result (λ told. told ≡ at_line line fault) }
    ensures words { OnOk result (fault ≡ WordsFault.NoMemory → ⊥) }
{
    match fault {
        WordsFault::NotText { line: _ } => Ok(WordsFault::NotText { line }),
        WordsFault::OpenQuote { line: _ } => Ok(WordsFault::OpenQuote { line }),
        WordsFault::QuoteTail { line: _ } => Ok(WordsFault::QuoteTail { line }),
        WordsFault::NoMemory => Err(NoMemory),
    }
}

/// The bytes of the file of a name, where it isn't missing.
pub fn file_of<'a>(files: &'a [FileText], name: &str) -> Option<&'a [u8]>
    requires { All HasShortBytes files.now }
    ensures value { option_map (λ bytes. bytes.now) result ≡ file_of name.now files.now }
    ensures short { IfSome result (λ bytes. length bytes.now < 2 ^ 32) }
{
    for file in files {
        if name == file.name.as_str() {
            return match &file.bytes {
                Some(bytes) => Some(bytes.as_slice()),
                None => None,
            };
        }
    }
    None
}
