ghost use Rattle.stream_wire.specs.Streams.{SinkState, Gives};

/// How many of the bytes went. None of bytes that aren't empty is a failure, and counts as one.
#[derive(Clone, Copy, Debug, PartialEq, Eq)]
pub enum Gave {
    Gave(usize),
    Failed,
}

/// Where bytes go, as the writing half of a connection. It may cut them anywhere.
pub trait ByteSink {
    /// The bytes that it took, where the sink tells them, and how many calls have failed.
    ghost state: { Self → SinkState };

    /// Hands out bytes from the front of these. It may wait.
    fn give(&mut self, bytes: &[u8]) -> Gave
        ensures { Gives (state self.old) (state self.new) bytes.now result };
}
