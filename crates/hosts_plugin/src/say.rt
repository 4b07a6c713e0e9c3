ghost use Rattle.std.specs.Prelude.{◌≡◌, IfOk};
ghost use Rattle.dns_data.specs.Message.{no_answer};
ghost use Rattle.hosts_plugin.specs.Hosts.{Says, address_say, hosts_say, name_say, unlisted};

use crate::answering::{push_addresses, push_pointers};
use crate::plan::HostsPlan;
use dns_data::{Name, NoMemory, Query, Slot, kind};
use std::alloc::Global;
use zone_words::is_in;

/// What `hosts` says of a query: it is answered, it goes on, or its name is unknown, and it ends
/// with SERVFAIL.
#[derive(Clone, Copy, Debug, PartialEq, Eq)]
pub enum HostsSay {
    Reply,
    Next,
    Unknown,
}

/// What a plan says of a query: a reply fills the slot.
#[tactic(auto, unfolding(crate::specs::Hosts::hosts_say))]
pub fn decide(
    alloc: Global,
    plan: &HostsPlan,
    query: &Query,
    slot: &mut Slot,
) -> Result<HostsSay, NoMemory>
    requires clear { slot.old ≡ no_answer }
    ensures { IfOk result (λ say. Says say (hosts_say plan.now query.now) slot.new) }
{
    if query.kind == kind::PTR {
        return plan.say_of_address(alloc, query, slot);
    }
    if !is_in(&query.name, plan.zones().as_slice()) {
        return Ok(HostsSay::Next);
    }
    plan.say_of_name(alloc, query, slot)
}

impl HostsPlan {
    // What it says of a name in its zones.
    fn say_of_name(
        &self,
        alloc: Global,
        query: &Query,
        slot: &mut Slot,
    ) -> Result<HostsSay, NoMemory>
        requires clear { slot.old ≡ no_answer }
        ensures { IfOk result (λ say. Says say (name_say self.now query.now) slot.new) }
    {
        let table = self.table();
        let Some(set) = table.names.find(&query.name) else {
            return Ok(self.unlisted(&query.name));
        };
        let listings = table.listings.as_slice();
        push_addresses(alloc, listings, set, query, self.ttl, &mut slot.answer)?;
        slot.aa = true;
        Ok(HostsSay::Reply)
    }

    // What it says of a name that isn't listed.
    fn unlisted(&self, name: &Name) -> HostsSay
        ensures { Says result (unlisted self.now name.now) no_answer }
    {
        if is_in(name, self.fallthrough.as_slice()) {
            return HostsSay::Next;
        }
        HostsSay::Unknown
    }

    // What it says of the name of an address.
    fn say_of_address(
        &self,
        alloc: Global,
        query: &Query,
        slot: &mut Slot,
    ) -> Result<HostsSay, NoMemory>
        requires clear { slot.old ≡ no_answer }
        ensures { IfOk result (λ say. Says say (address_say self.now query.now) slot.new) }
    {
        if self.no_reverse {
            return Ok(HostsSay::Next);
        }
        let table = self.table();
        let Some(set) = table.addresses.find(&query.name) else {
            return Ok(HostsSay::Next);
        };
        let pointers = table.pointers.as_slice();
        push_pointers(
            alloc,
            pointers,
            set,
            &query.name,
            self.ttl,
            &mut slot.answer,
        )?;
        slot.aa = true;
        Ok(HostsSay::Reply)
    }
}
