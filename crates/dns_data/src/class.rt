//! Classes, by number (RFC 1035, sections 3.2.4 and 3.2.5).

/// The Internet (RFC 1035, section 3.2.4), the one class that this server serves.
pub const IN: u16 = 1;

/// Chaos (RFC 1035, section 3.2.4).
pub const CH: u16 = 3;

/// No class, in an update alone (RFC 2136, section 1.3).
pub const NONE: u16 = 254;

/// All classes, in a question alone (RFC 1035, section 3.2.5).
pub const ANY: u16 = 255;
