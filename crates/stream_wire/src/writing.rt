ghost use Rattle.std.specs.Prelude.{◌≡◌, ◌≤◌, ◌+◌, ◌/◌, ◌%◌, ◌∷◌, length, take};
ghost use Rattle.dns_data.specs.declared.limit.TheConstants as limits;
ghost use Rattle.stream_wire.specs.Frames.{framed, WritesAll};

use crate::{ByteSink, Gave};
use outside::Wrote;

/// The bytes that go out with the length in one call, so that a message of usual size is not cut
/// behind its length (RFC 7766, section 8).
const FIRST_PIECE: usize = 1_280;

/// Writes a message behind its length. Behind Failed the sink may stand inside a frame.
pub fn write_frame<K: ByteSink>(sink: &mut K, bytes: &[u8]) -> Wrote
    requires { length bytes.now ≤ limits.MESSAGE_BYTES }
    ensures { WritesAll (K.state sink.old) (K.state sink.new) (framed bytes.now) result }
{
    let (front, rest) = bytes.split_at(bytes.len().min(FIRST_PIECE - 2));
    let mut first = [0u8; FIRST_PIECE];
    put_first(&mut first, bytes.len() as u16, front);
    match write_all(sink, &first[..front.len() + 2]) {
        Wrote::Ok => write_all(sink, rest),
        Wrote::Failed => Wrote::Failed,
    }
}

// Puts a length and the bytes behind it into the front of a buffer.
fn put_first(first: &mut [u8], size: u16, bytes: &[u8])
    requires { length bytes.now + 2 ≤ length first.old }
    ensures { take (length bytes.now + 2) first.new ≡ size / 256 ∷ size % 256 ∷ bytes.now }
{
    first[..2].copy_from_slice(&size.to_be_bytes());
    first[2..bytes.len() + 2].copy_from_slice(bytes);
}

// Hands out bytes to their end, however the sink cuts.
fn write_all<K: ByteSink>(sink: &mut K, bytes: &[u8]) -> Wrote
    ensures { WritesAll (K.state sink.old) (K.state sink.new) bytes.now result }
{
    let mut at = 0;
    while at < bytes.len() {
        match sink.give(&bytes[at..]) {
            Gave::Gave(0) | Gave::Failed => return Wrote::Failed,
            Gave::Gave(count) => at += count,
        }
    }
    Wrote::Ok
}
