ghost use Rattle.std.specs.Prelude.{◌≡◌, ◌++◌, ◌∷◌, [], OnOk};
ghost use Rattle.dns_data.specs.Message.{no_answer};
ghost use Rattle.plain_plugins.specs.Whoami.{whoami_of, srv_owner, srv_records, transport_label};

use dns_data::{NoMemory, Query, RecordRoom, Slot, Transport, limit};
use std::alloc::Global;

/// Tells the client its own address, in an A or AAAA record at the query name, and its port, in an
/// SRV record below it. Both have TTL 0.
#[tactic(auto, unfolding(crate::specs::Whoami::whoami_of))]
pub fn whoami_answer(alloc: Global, query: &Query, slot: &mut Slot) -> Result<(), NoMemory>
    requires clear { slot.old ≡ no_answer }
    ensures { OnOk result (slot.new ≡ whoami_of query.now) }
{
    slot.aa = true;
    slot.additional
        .push_address(alloc, &query.name, 0, query.client)?;
    push_srv(alloc, query, &mut slot.additional)
}

// The label of a transport.
fn transport_label(by: Transport) -> &'static [u8]
    ensures { result.now ≡ transport_label by }
{
    match by {
        Transport::Udp => b"_udp",
        Transport::Tcp => b"_tcp",
    }
}

// Adds the SRV record, where its owner is a name.
fn push_srv(alloc: Global, query: &Query, additional: &mut RecordRoom) -> Result<(), NoMemory>
    ensures { let owner = srv_owner query.now.by query.now.name in
        OnOk result (additional.new ≡ additional.old ++ srv_records owner query.now.port) }
{
    if limit::NAME_BYTES < query.name.wire_len() + 5 {
        return Ok(());
    }
    let label = transport_label(query.by);
    additional.push_service(alloc, label, &query.name, 0, query.port)
}
