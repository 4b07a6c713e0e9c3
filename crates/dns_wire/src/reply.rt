ghost use Rattle.std.specs.Prelude.{IfOk};
ghost use Rattle.dns_wire.specs.Spells.{SpellsAlone, SpellsReply};
ghost use Rattle.dns_wire.specs.Reads.{Reads};

use crate::WireFault;
use crate::message::read_message;
use dns_data::limit::HEADER_BYTES;
use dns_data::{Message, opcode};
use std::alloc::Global;

/// Reads a reply to a query: QR set, opcode QUERY, one question, and any records.
pub fn read_reply(alloc: Global, bytes: &[u8]) -> Result<Message, WireFault>
    ensures read { Reads (SpellsReply bytes.now) result }
    ensures alone { IfOk result (SpellsAlone bytes.now) }
{
    if bytes.len() < HEADER_BYTES {
        return Err(WireFault::Bad);
    }
    let message = read_message(alloc, bytes)?;
    if !message.qr {
        return Err(WireFault::Bad);
    }
    if message.opcode != opcode::QUERY {
        return Err(WireFault::Bad);
    }
    Ok(message)
}
