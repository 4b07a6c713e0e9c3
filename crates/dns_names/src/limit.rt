//! How long labels and names are (RFC 1035, section 2.3.4).

/// Bytes of a label.
pub const LABEL_BYTES: usize = 63;

/// Bytes of a name in wire format, its zero byte among them.
pub const NAME_BYTES: usize = 255;
