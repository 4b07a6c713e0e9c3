/// How a worker ended: it took the last datagram, it met 64 failing calls of `recv` in a row, or 64
/// in a row failed or met want of memory, and at least one of them want of memory.
#[derive(Clone, Copy, Debug, PartialEq, Eq)]
pub enum WorkEnd {
    End,
    RecvFailed,
    NoMemory,
}
