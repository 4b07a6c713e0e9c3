ghost use Rattle.stream_wire.specs.Streams.{SourceState, TakesInto};

/// What a look for bytes gave: so many stand in the front of the buffer. None of them in a buffer
/// that isn't empty is the end, as End is.
#[derive(Clone, Copy, Debug, PartialEq, Eq)]
pub enum Taken {
    Took(usize),
    End,
    Failed,
}

/// Where bytes come from, as the reading half of a connection. They come cut anywhere.
pub trait ByteSource {
    /// The bytes that are left, where the source tells them, and how many calls have failed.
    ghost state: { Self → SourceState };

    /// Takes the next bytes, at most as many as the buffer holds. It may wait.
    fn take(&mut self, buffer: &mut [u8]) -> Taken
        ensures { TakesInto (state self.old) (state self.new) buffer.new result };
}
