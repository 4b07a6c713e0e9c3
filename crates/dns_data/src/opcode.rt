//! Opcodes, by number (RFC 1035, section 4.1.1).

/// A standard query, the one opcode that this server answers.
pub const QUERY: u8 = 0;

/// A change of a zone is told (RFC 1996, section 3.1).
pub const NOTIFY: u8 = 4;

/// A zone is to be changed (RFC 2136, section 1.3).
pub const UPDATE: u8 = 5;
