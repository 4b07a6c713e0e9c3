use std::alloc::{AllocError, AllocFailed};

/// Memory ran out. No clause of this server says when: it is the one answer that any call which
/// allocates may give.
#[derive(Clone, Copy, Debug, PartialEq, Eq)]
pub struct NoMemory;

impl From<AllocError> for NoMemory {
    fn from(_: AllocError) -> NoMemory {
        NoMemory
    }
}

impl<T: Drop> From<AllocFailed<T>> for NoMemory {
    fn from(_: AllocFailed<T>) -> NoMemory {
        NoMemory
    }
}
