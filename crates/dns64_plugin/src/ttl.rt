//! TTLs, in seconds.

/// The most that a translated address has where the first verdict has no SOA (RFC 6147, section
/// 5.1.7), and the TTL of a CNAME where no record stands behind it.
pub const DEFAULT: u32 = 600;
