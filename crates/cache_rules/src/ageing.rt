ghost use Rattle.std.specs.Prelude.{◌≡◌, ◌++◌, ◌<◌, ◌^◌, OnOk};
ghost use Rattle.cache_rules.specs.Aged.{aged, seconds_left, with_ttl};

use crate::plan::CachePlan;
use dns_data::{NoMemory, Record, RecordRoom, Slot};
use outside::Entry;
use std::alloc::Global;

/// How many whole seconds an entry still lives.
pub fn seconds_left(born: u64, life: u32, now: u64) -> u32
    ensures { result ≡ seconds_left born life now }
{
    let passed = now.saturating_sub(born) / 1000;
    if passed < u64::from(life) {
        return life - passed as u32;
    }
    0
}

/// Becomes an entry's answer, as a hit gives it.
pub fn aged(
    alloc: Global,
    plan: &CachePlan,
    entry: &Entry,
    now: u64,
    slot: &mut Slot,
) -> Result<(), NoMemory>
    ensures { OnOk result (slot.new ≡ aged plan.now entry.now now) }
{
    let answer = &entry.answer;
    if plan.settings().keepttl {
        return slot.fill(alloc, answer);
    }
    let ttl = seconds_left(entry.born, entry.life, now);
    slot.clear();
    slot.rcode = answer.rcode;
    slot.aa = answer.aa;
    slot.ra = answer.ra;
    slot.tc = answer.tc;
    fill_aged(alloc, ttl, answer.answer.as_slice(), &mut slot.answer)?;
    fill_aged(alloc, ttl, answer.authority.as_slice(), &mut slot.authority)?;
    fill_aged(
        alloc,
        ttl,
        answer.additional.as_slice(),
        &mut slot.additional,
    )
}

// Adds copies of records with this TTL.
fn fill_aged(
    alloc: Global,
    ttl: u32,
    records: &[Record],
    room: &mut RecordRoom,
) -> Result<(), NoMemory>
    requires { ttl < 2 ^ 31 }
    ensures { OnOk result (room.new ≡ room.old ++ with_ttl ttl records.now) }
{
    for entry in records {
        room.push_copy(alloc, &entry.owner, ttl, entry)?;
    }
    Ok(())
}
