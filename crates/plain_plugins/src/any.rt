ghost use Rattle.std.specs.Prelude.{◌≡◌, OnOk};
ghost use Rattle.dns_data.specs.Message.{no_answer};
ghost use Rattle.plain_plugins.specs.Any.{any_of};

use dns_data::{Bytes, Name, NoMemory, Query, Rdata, Record, Slot, class};
use std::alloc::Global;

// In seconds. The number of the RFC.
const TTL: u32 = 8_482;

/// One HINFO record in place of all records of a name (RFC 8482, section 4.2).
#[tactic(auto, unfolding(crate::specs::Any::any_of))]
pub fn any_answer(alloc: Global, query: &Query, slot: &mut Slot) -> Result<(), NoMemory>
    requires clear { slot.old ≡ no_answer }
    ensures { OnOk result (slot.new ≡ any_of query.now) }
{
    let cpu = Bytes::from_slice(alloc, b"ANY obsoleted")?;
    let os = Bytes::from_slice(alloc, b"See RFC 8482")?;
    let record = Record::new(Name::root(alloc), class::IN, TTL, Rdata::Hinfo(cpu, os));
    slot.answer.push_copy(alloc, &query.name, TTL, &record)
}
