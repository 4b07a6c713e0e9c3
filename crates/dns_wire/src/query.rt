ghost use Rattle.std.specs.Prelude.{IfOk};
ghost use Rattle.dns_wire.specs.Spells.{ReadsQuery, SpellsAlone};

use crate::header::{check_query, head_at};
use crate::message::read_message;
use crate::{QueryFault, WireFault};
use dns_data::Message;
use std::alloc::Global;

/// Reads a query: QR clear, opcode QUERY, one question, and any records (RFC 1035, section 4.1; OPT
/// by RFC 6891).
pub fn read_query(alloc: Global, bytes: &[u8]) -> Result<Message, QueryFault>
    ensures read { ReadsQuery bytes.now result }
    ensures alone { IfOk result (SpellsAlone bytes.now) }
{
    if let Err(fault) = check_query(bytes) {
        return Err(fault);
    }
    match read_message(alloc, bytes) {
        Ok(message) => Ok(message),
        Err(WireFault::Bad) => Err(QueryFault::FormErr(head_at(bytes))),
        Err(WireFault::NoMemory) => Err(QueryFault::NoMemory),
    }
}
