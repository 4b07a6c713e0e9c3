ghost use Rattle.std.specs.Prelude.{◌≡◌, ◌≤◌, length, Some};
ghost use Rattle.stream_wire.specs.Streams.{SourceState, SinkState};

use outside::Wrote;
use stream_wire::{ByteSink, ByteSource, Frame, Gave, Taken, read_frame, write_frame};

// A query for the address of example.org, of 29 bytes.
const QUERY: &[u8; 29] = b"\x12\x34\x01\x00\x00\x01\x00\x00\x00\x00\x00\x00\
    \x07example\x03org\x00\x00\x01\x00\x01";

// The query as a stream carries it.
const STREAM: &[u8; 31] = b"\x00\x1d\x12\x34\x01\x00\x00\x01\x00\x00\x00\x00\x00\x00\
    \x07example\x03org\x00\x00\x01\x00\x01";

// A source of these bytes.
#[derive(Drop)]
struct Source<'a> {
    rest: &'a [u8],
}

impl ByteSource for Source<'_> {
    ghost state = { λ s. record { left = Some s.rest.now; faults = 0 } };

    fn take(&mut self, buffer: &mut [u8]) -> Taken {
        let count = buffer.len().min(self.rest.len());
        let (front, rest) = self.rest.split_at(count);
        buffer[..count].copy_from_slice(front);
        self.rest = rest;
        Taken::Took(count)
    }
}

// A sink that takes all that it is given.
#[derive(Drop)]
struct Sink {
    got: Vec<u8>,
    faults: u64,
}

impl ByteSink for Sink {
    ghost state = { λ s. record { took = Some s.got.items; faults = s.faults } };

    fn give(&mut self, bytes: &[u8]) -> Gave {
        if self.got.extend_from_slice(bytes).is_err() {
            self.faults = self.faults.saturating_add(1);
            return Gave::Failed;
        }
        Gave::Gave(bytes.len())
    }
}

// The next frame in brief: whether it is the query, `want` and `got`.
fn brief(frame: &Frame) -> (&'static str, u32, u32) {
    match frame {
        Frame::Got(bytes) if bytes.is(QUERY) => ("query", 0, 0),
        Frame::Torn { want, got } => ("torn", *want, *got),
        Frame::End => ("end", 0, 0),
        _ => ("other", 0, 0),
    }
}

#[test]
fn frames_are_read_whole_or_torn(rt: HostRuntime) {
    for (end, want) in [
        (0, ("end", 0, 0)),
        (1, ("torn", 2, 1)),
        (2, ("torn", 29, 0)),
        (12, ("torn", 29, 10)),
        (30, ("torn", 29, 28)),
        (31, ("query", 0, 0)),
    ] {
        let mut source = Source {
            rest: &STREAM[..end],
        };
        assert_eq!(rt; brief(&read_frame(rt.alloc(), &mut source)), want);
    }
}

#[test]
fn a_message_is_written_behind_its_length(rt: HostRuntime) {
    let mut sink = Sink {
        got: Vec::new(rt.alloc()),
        faults: 0,
    };
    assert_eq!(rt; write_frame(&mut sink, QUERY), Wrote::Ok);
    assert_eq!(rt; sink.got.as_slice(), STREAM.as_slice());
}
