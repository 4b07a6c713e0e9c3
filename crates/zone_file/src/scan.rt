ghost use Rattle.std.specs.Prelude.{◌≡◌, ◌+◌, ◌<◌, ◌≤◌, ◌^◌, length, IfOk};
ghost use Rattle.record_text.specs.Words.{is_blank};
ghost use Rattle.zone_file.specs.Entries.{Scans};

use record_text::{Form, RecordFault, Words, first_word};

/// The words of a line behind others, and how many parentheses are open behind it, where so many
/// are in front of it. Bad where a quote isn't closed, a word doesn't end behind one, or a
/// parenthesis closes nothing.
pub(crate) fn scan<'a>(
    words: Words<'a>,
    depth: u32,
    line: &'a [u8],
) -> Result<(Words<'a>, u32), RecordFault>
    requires { depth + length line.now < 2 ^ 32 }
    ensures value { Scans words.entry depth line.now result }
    ensures few { IfOk result (λ read. read.1 ≤ depth + length line.now) }
{
    let mut words = words;
    let mut depth = depth;
    let mut rest = line;
    while let Some((byte, behind)) = rest.split_first() {
        if is_blank(*byte) {
            rest = behind;
        } else if *byte == b';' {
            return Ok((words, depth));
        } else if *byte == b'(' {
            depth += 1;
            rest = behind;
        } else if *byte == b')' {
            if depth == 0 {
                return Err(RecordFault::Bad);
            }
            depth -= 1;
            rest = behind;
        } else {
            let Some((word, size)) = first_word(rest, Form::ZoneFile) else {
                return Err(RecordFault::Bad);
            };
            words.push(word)?;
            rest = &behind[size..];
        }
    }
    Ok((words, depth))
}

// Whether a byte parts words.
pub(crate) fn is_blank(byte: u8) -> bool
    ensures { result ≡ is_blank byte }
{
    byte == b' ' || byte == b'\t'
}
