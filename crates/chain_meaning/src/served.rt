use dns_data::Buffer;

/// Why a datagram gets no reply: fewer than 12 bytes, a response, or a chain that drops it.
#[derive(Clone, Copy, Debug, PartialEq, Eq)]
pub enum Silence {
    Short,
    Response,
    Dropped,
}

/// What serving one datagram gives.
#[derive(Debug, Drop)]
pub enum Served {
    Reply(Buffer),
    Silent(Silence),
    NoMemory,
}
