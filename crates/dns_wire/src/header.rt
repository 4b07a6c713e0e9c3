ghost use Rattle.std.specs.Prelude.{◌≡◌, ◌≤◌, ◌/◌, ◌%◌, length, slice_index};
ghost use Rattle.dns_wire.specs.Spells.{Asks, FlagsAt, HeadIs, ReadsBy};

use crate::number::{flag_at, u16_at};
use crate::{Head, QueryFault};
use dns_data::limit::HEADER_BYTES;
use dns_data::opcode;

/// What the header of a message says beside its counts (RFC 1035, section 4.1.1; AD and CD by RFC
/// 4035, section 3).
#[derive(Clone, Copy, Debug, PartialEq, Eq)]
pub struct Flags {
    pub id: u16,
    pub qr: bool,
    /// Below 16.
    pub opcode: u8,
    pub aa: bool,
    pub tc: bool,
    pub rd: bool,
    pub ra: bool,
    pub ad: bool,
    pub cd: bool,
    /// Below 16.
    pub rcode: u8,
}

/// What a header says beside its counts.
#[inline(always)]
pub fn flags_at(bytes: &[u8]) -> Flags
    requires { 12 ≤ length bytes.now }
    ensures { FlagsAt bytes.now result }
{
    Flags {
        id: u16_at(bytes, 0),
        qr: flag_at(bytes, 2, 7),
        opcode: bytes[2] / 8 % 16,
        aa: flag_at(bytes, 2, 2),
        tc: flag_at(bytes, 2, 1),
        rd: flag_at(bytes, 2, 0),
        ra: flag_at(bytes, 3, 7),
        ad: flag_at(bytes, 3, 5),
        cd: flag_at(bytes, 3, 4),
        rcode: bytes[3] % 16,
    }
}

/// Tells the first fault of bytes whose header isn't that of a query with opcode QUERY.
#[inline(always)]
pub fn check_query(bytes: &[u8]) -> Result<(), QueryFault>
    ensures { ReadsBy
        (λ _. Asks bytes.now × (slice_index bytes.now 2 / 8 % 16 ≡ 0)) bytes.now result }
{
    if bytes.len() < HEADER_BYTES {
        return Err(QueryFault::Short);
    }
    if flag_at(bytes, 2, 7) {
        return Err(QueryFault::Response);
    }
    if bytes[2] / 8 % 16 != opcode::QUERY {
        return Err(QueryFault::NotImp(head_at(bytes)));
    }
    Ok(())
}

/// What the header says for an answer to a query that isn't read.
pub fn head_at(bytes: &[u8]) -> Head
    requires { 12 ≤ length bytes.now }
    ensures { HeadIs bytes.now result }
{
    let flags = flags_at(bytes);
    Head {
        id: flags.id,
        opcode: flags.opcode,
        rd: flags.rd,
    }
}
