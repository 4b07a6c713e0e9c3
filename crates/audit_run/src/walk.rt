use outside::Mark;

/// How far a walk along a side's journal has come: how many datagrams were taken, how many receives
/// in a row gave none, and the last serial that was pinned.
#[derive(Clone, Copy, Debug)]
pub(crate) struct Walk {
    pub taken: u64,
    pub row: u64,
    pub last: u64,
}

/// What a journal comes to.
#[derive(Clone, Copy, Debug, PartialEq, Eq)]
pub enum SideFault {
    /// The first mark that may not stand there, or the journal's length where it ends too early.
    Mark(usize),
    NoMemory,
}

/// A turn is behind, with its serial and the marks that are left; or the mark with this number may
/// not stand there.
#[derive(Clone, Copy, Debug)]
pub(crate) enum Step<'a> {
    Goes(u64, &'a [Mark]),
    Fails(usize),
}

/// The end of a turn, with the marks that are left; or the mark with this number may not stand
/// there.
#[derive(Clone, Copy, Debug)]
pub(crate) enum Tail<'a> {
    Ends(&'a [Mark]),
    Fails(usize),
}

/// A turn is behind, with the marks that are left; or the mark with this number may not stand
/// there; or the journal may end so.
#[derive(Clone, Copy, Debug)]
pub(crate) enum Stepped<'a> {
    Goes(&'a [Mark]),
    Fails(usize),
    Ends,
}
