use crate::clock::moment;
use crate::crew::Crew;
use edge_sockets::{EdgeLine, line_text, note_line};
use std::alloc::Global;
use std::sync::Wait;
use std::time::Clock;

/// What a side knows of how its run starts.
#[derive(Clone, Copy, Debug, PartialEq, Eq)]
pub(crate) enum Start {
    /// The side has not begun to receive.
    Waiting,
    /// It has, and others may not have.
    Begun,
    /// All sides have begun.
    Whole,
}

impl Start {
    /// Begins where the side has not begun, and looks whether all have. Says whether one has not in
    /// time, so that the run is to end.
    #[cold]
    #[inline(never)]
    pub fn go_on(&mut self, rt: &(impl Clock + Wait + Eprint), alloc: Global, crew: &Crew) -> bool {
        if let Start::Waiting = self {
            crew.begin(rt, moment(rt).unwrap_or(u64::MAX));
            *self = Start::Begun;
        }
        if is_short(rt, alloc, crew) {
            return true;
        }
        if crew.is_whole() {
            *self = Start::Whole;
        }
        false
    }
}

/// Whether a side has not begun in time. Who finds it first ends the run.
pub(crate) fn is_short(rt: &(impl Clock + Wait + Eprint), alloc: Global, crew: &Crew) -> bool {
    if crew.is_short() {
        return true;
    }
    if !crew.is_late(moment(rt).unwrap_or(0)) {
        return false;
    }
    give_up(rt, alloc, crew);
    true
}

/// Ends a run of which a side has not begun in time, and tells the operator once.
pub fn give_up(rt: &(impl Wait + Eprint), alloc: Global, crew: &Crew) {
    if !crew.give_up(rt) {
        return;
    }
    if let Ok(line) = line_text(alloc, &EdgeLine::NoThreads(crew.sides())) {
        let _ = note_line(rt, line.as_str().as_bytes());
    }
}
