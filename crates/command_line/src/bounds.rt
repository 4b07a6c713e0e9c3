//! What the words mean where they say nothing, and how much they may ask for.

/// The port of keys that name none (RFC 1035, section 4.2).
pub const DEFAULT_PORT: u16 = 53;

/// Workers for each port and transport, where the words don't say.
pub const DEFAULT_WORKERS: u64 = 1;

/// Workers for each port and transport, at most.
pub const WORKERS: u64 = 16;

/// Queries of a load, at most.
pub const LOAD: u64 = 100_000;
