ghost use Rattle.stream_wire.specs.Fills.{FillsBuffer};

use crate::{ByteSource, Taken};

/// How far a buffer was filled: to its end, or so far, and then the source had ended.
#[derive(Clone, Copy, Debug)]
pub(crate) enum Filled {
    Full,
    Ended(usize),
    Failed,
}

/// Fills a buffer to its end, however the source cuts.
pub(crate) fn fill<B: ByteSource>(source: &mut B, buffer: &mut [u8]) -> Filled
    ensures { FillsBuffer (B.state source.old) (B.state source.new) buffer.new result }
{
    let mut at = 0;
    while at < buffer.len() {
        match source.take(&mut buffer[at..]) {
            Taken::Took(0) | Taken::End => return Filled::Ended(at),
            Taken::Took(count) => at += count,
            Taken::Failed => return Filled::Failed,
        }
    }
    Filled::Full
}
