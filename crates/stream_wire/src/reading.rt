ghost use Rattle.std.specs.Prelude.{◌≡◌, ◌<◌, ◌≤◌, ◌+◌, ◌*◌, max};
ghost use Rattle.dns_data.specs.declared.limit.TheConstants as limits;
ghost use Rattle.stream_wire.specs.Frames.{ReadsFrame, ReadsMessage};

use crate::ByteSource;
use crate::filling::{Filled, fill};
use dns_data::Bytes;
use std::alloc::Global;

/// The bytes for which a message has room before any of them came. The room doubles as it fills, so
/// that a peer who announces much and sends little costs little.
const FIRST_PIECE: usize = 512;

/// What a look for the next frame gave. Torn: the source ended inside one. `want` is its length,
/// and `got` the bytes behind the length that came; behind one byte of the length they are 2 and 1.
#[derive(Debug, Drop)]
pub enum Frame {
    Got(Bytes),
    End,
    Torn { want: u32, got: u32 },
    Failed,
    NoMemory,
}

/// Reads the next frame whole, and nothing behind it. Behind Failed and NoMemory the source may
/// stand inside a frame, and isn't to be read on.
pub fn read_frame<B: ByteSource>(alloc: Global, source: &mut B) -> Frame
    ensures { ReadsFrame (B.state source.old) (B.state source.new) result }
{
    let mut size = [0u8; 2];
    match fill(source, &mut size) {
        Filled::Full => read_message(alloc, source, length_of(size[0], size[1])),
        Filled::Ended(0) => Frame::End,
        Filled::Ended(_) => Frame::Torn { want: 2, got: 1 },
        Filled::Failed => Frame::Failed,
    }
}

// The length that two bytes announce.
pub(crate) fn length_of(high: u8, low: u8) -> u16
    ensures is { result ≡ 256 * high + low }
    ensures high { high < 256 }
    ensures low { low < 256 }
{
    u16::from_be_bytes([high, low])
}

// How many bytes of a message of this size there is to be room for, once so many came.
fn room_for(size: usize, have: usize) -> usize
    requires fits { size ≤ limits.MESSAGE_BYTES }
    requires more { have < size }
    ensures grows { have < result }
    ensures inside { result ≤ size }
    ensures earned { result ≤ have + max have FIRST_PIECE }
{
    size.min(have + have.max(FIRST_PIECE))
}

// Reads the message behind its length.
fn read_message<B: ByteSource>(alloc: Global, source: &mut B, want: u16) -> Frame
    ensures { ReadsMessage want (B.state source.old) (B.state source.new) result }
{
    let size = usize::from(want);
    let mut bytes = Vec::new(alloc);
    while bytes.len() < size {
        let have = bytes.len();
        if bytes.resize(room_for(size, have), 0).is_err() {
            return Frame::NoMemory;
        }
        match fill(source, &mut bytes[have..]) {
            Filled::Full => {}
            Filled::Ended(more) => {
                let got = (have + more) as u32;
                let want = u32::from(want);
                return Frame::Torn { want, got };
            }
            Filled::Failed => return Frame::Failed,
        }
    }
    Frame::Got(Bytes::of(bytes))
}
