use crate::{Name, Records};

/// A zone: its origin, and its records in the order of their text (RFC 1035, section 5).
#[derive(Debug, Drop)]
pub struct Zone {
    pub origin: Name,
    pub records: Records,
}
