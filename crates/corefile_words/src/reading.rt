ghost use Rattle.std.specs.Prelude.{◌≡◌, ℕ, ◌<◌, ◌^◌, length, OnOk, IfOk};
ghost use Rattle.std.specs.List.{All};
ghost use Rattle.std.specs.Str.{IsUtf8};
ghost use Rattle.corefile_words.specs.BadBytes.{BreaksIn};
ghost use Rattle.corefile_words.specs.Words.{ReadsWords};

use crate::line::read_line;
use crate::lines::first_line;
use crate::{Pair, WordLine, WordLines, WordsFault};
use dns_data::Seq;
use std::alloc::Global;

/// The lines of words of a Corefile, or the fault of the first line that has one. Lines without
/// words are left out, and the others keep their numbers.
pub fn read_words(alloc: Global, bytes: &[u8], env: &[Pair]) -> Result<WordLines, WordsFault>
    requires { length bytes.now < 2 ^ 32 }
    ensures reads { ReadsWords bytes.now env.now result }

    // What that says of the text as a whole.
    ensures words { IfOk result (λ lines. All (λ line. 0 < length line.words) lines) }
    ensures utf8 { OnOk result (IsUtf8 bytes.now) }
    ensures not_text { (line : ℕ) → result ≡ Err (WordsFault.NotText line)
        → BreaksIn 1 bytes.now line }
{
    let mut lines = Seq::new(alloc);
    let mut rest = bytes;
    let mut number = 0;
    while 0 < rest.len() {
        number += 1;
        let (line, behind) = first_line(rest);
        let words = read_line(alloc, number, line, env)?;
        if 0 < words.len() {
            lines.push(WordLine { words, number })?;
        }
        rest = behind;
    }
    Ok(lines)
}
