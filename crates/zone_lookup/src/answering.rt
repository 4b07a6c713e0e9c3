ghost use Rattle.std.specs.Prelude.{◌≡◌, ◌<◌, ◌++◌, ◌&&◌, ◌==◌, [], false, OnOk, IfOk};
ghost use Rattle.std.specs.Prelude.{IfSome, option_map};
ghost use Rattle.dns_data.specs.Message.{no_answer};
ghost use Rattle.dns_data.specs.declared.kind.TheConstants as kinds;
ghost use Rattle.dns_data.specs.declared.rcode.TheConstants as rcodes;
ghost use Rattle.zone_lookup.specs.Ready.{ended_by, StandsBehind};
ghost use Rattle.dns_data.specs.{is_same};
ghost use Rattle.zone_lookup.specs.ZoneAnswer.{chain, is_followed, authority, rcode_of};
ghost use Rattle.zone_lookup.specs.ZoneAnswer.{own_answer, zone_answer, whole_chain, found};
ghost use Rattle.zone_lookup.specs.ZoneAnswer.{Ends, Finds, with_answer, with_authority};

use crate::ZoneStore;
use crate::find::{Find, Reached};
use dns_data::{Name, NoMemory, Record, RecordRoom, Slot, kind, rcode};
use dns_write::Tail;
use std::alloc::Global;

/// CNAME records that are followed at most, the first one among them.
const STEPS: u32 = 8;

/// How a run of CNAME records ends: whether its last name is absent, and whether that has no
/// records.
#[derive(Clone, Copy, Debug, PartialEq, Eq)]
pub struct End {
    pub absent: bool,
    pub denied: bool,
}

/// Fills a slot with the answer of a zone to a question for a name within it.
pub fn lookup<Z: ZoneStore>(
    alloc: Global,
    zone: &Z,
    name: &Name,
    kind: u16,
    slot: &mut Slot,
) -> Result<(), NoMemory>
    requires clear { slot.old ≡ no_answer }
    ensures { OnOk result (slot.new ≡ zone_answer (Z.zone zone.now) name.now kind) }
{
    match answer(alloc, zone, name, kind, slot)? {
        Some(tail) => tail.copy_into(alloc, slot),
        None => Ok(()),
    }
}

/// The same, but sections behind the answer that stand ready in the zone may be given instead: then
/// the slot with these in place of its own is the answer.
pub fn answer<'a, Z: ZoneStore>(
    alloc: Global,
    zone: &'a Z,
    name: &Name,
    kind: u16,
    slot: &mut Slot,
) -> Result<Option<&'a Tail>, NoMemory>
    requires clear { slot.old ≡ no_answer }
    ensures { IfOk result (λ tail. ended_by slot.new (option_map (λ t. t.now) tail)
        ≡ zone_answer (Z.zone zone.now) name.now kind) }
{
    match zone.refer_or_find(alloc, name, kind, slot)? {
        Reached::Cut => Ok(None),
        Reached::Lent(tail) => Ok(Some(tail)),
        Reached::Found(find) => positive(alloc, zone, name, kind, find, slot),
    }
}

// The answer from what the name itself gave, which stands in the slot.
fn positive<'a, Z: ZoneStore>(
    alloc: Global,
    zone: &'a Z,
    name: &Name,
    kind: u16,
    find: Find,
    slot: &mut Slot,
) -> Result<Option<&'a Tail>, NoMemory>
    requires clear { slot.old ≡ with_answer slot.old.answer }
    requires finds { Finds (found (Z.zone zone.now) name.now kind) find [] slot.old.answer }
    ensures { IfOk result (λ tail. ended_by slot.new (option_map (λ t. t.now) tail)
        ≡ own_answer (Z.zone zone.now) name.now kind) }
{
    let end = follow(alloc, zone, kind, name, find, &mut slot.answer)?;
    slot.aa = true;
    slot.rcode = rcode_of(end.absent);
    zone.push_hosts(
        alloc,
        slot.answer.as_slice(),
        slot.answer.as_slice(),
        &mut slot.additional,
    )?;
    end_with(alloc, zone, name, kind, end.denied, slot)
}

// The authority section and the addresses of the hosts that it names: lent, where they stand ready
// and no addresses are there, and else added.
fn end_with<'a, Z: ZoneStore>(
    alloc: Global,
    zone: &'a Z,
    name: &Name,
    kind: u16,
    denied: bool,
    slot: &mut Slot,
) -> Result<Option<&'a Tail>, NoMemory>
    requires { slot.old.authority ≡ [] }
    ensures { IfOk result (λ tail. ended_by slot.new (option_map (λ t. t.now) tail)
        ≡ with_authority (Z.zone zone.now) slot.old
        (authority (Z.zone zone.now) name.now kind denied)) }
{
    if slot.additional.len() == 0 {
        let answer = slot.answer.as_slice();
        if let Some(tail) = ready(zone, name, kind, denied, answer) {
            return Ok(Some(tail));
        }
    }
    push_authority(alloc, zone, name, kind, denied, slot)?;
    Ok(None)
}

// What stands ready for the sections behind an answer.
fn ready<'a, Z: ZoneStore>(
    zone: &'a Z,
    name: &Name,
    kind: u16,
    denied: bool,
    answer: &[Record],
) -> Option<&'a Tail>
    ensures { IfSome result (λ tail. StandsBehind (Z.zone zone.now) answer.now
        (authority (Z.zone zone.now) name.now kind denied) tail.now) }
{
    if denied {
        return zone.ready_denial();
    }
    if is_question(zone.origin(), name, kind) {
        return None;
    }
    zone.ready_servers(answer)
}

fn rcode_of(absent: bool) -> u8
    ensures value { result ≡ rcode_of absent }
    ensures small { result < 16 }
{
    if absent {
        rcode::NXDOMAIN
    } else {
        rcode::NOERROR
    }
}

// Follows CNAME records from what the first name gave on.
fn follow<Z: ZoneStore>(
    alloc: Global,
    zone: &Z,
    kind: u16,
    name: &Name,
    find: Find,
    out: &mut RecordRoom,
) -> Result<End, NoMemory>
    requires { Finds (found (Z.zone zone.now) name.now kind) find [] out.old }
    ensures { IfOk result
        (λ end. Ends (whole_chain (Z.zone zone.now) name.now kind) end [] out.new) }
{
    let _ = name;
    let Some(target) = find.target else {
        return Ok(End {
            absent: find.absent,
            denied: out.len() == 0,
        });
    };
    if !is_followed(alloc, zone, &target)? {
        return Ok(cut_off());
    }
    chain(alloc, zone, STEPS - 1, kind, &target, out)
}

// Appends what a name gives, and follows CNAME records for at most so many more steps.
fn chain<Z: ZoneStore>(
    alloc: Global,
    zone: &Z,
    left: u32,
    kind: u16,
    name: &Name,
    out: &mut RecordRoom,
) -> Result<End, NoMemory>
    ensures { IfOk result
        (λ end. Ends (chain left (Z.zone zone.now) kind name.now) end out.old out.new) }
{
    let start = out.len();
    let find = zone.find(alloc, name, kind, out)?;
    let Some(target) = find.target else {
        return Ok(End {
            absent: find.absent,
            denied: out.len() == start,
        });
    };
    if left == 0 {
        return Ok(cut_off());
    }
    if !is_followed(alloc, zone, &target)? {
        return Ok(cut_off());
    }
    chain(alloc, zone, left - 1, kind, &target, out)
}

fn cut_off() -> End
    ensures { result ≡ record { absent = false; denied = false } }
{
    End {
        absent: false,
        denied: false,
    }
}

// Whether a name is in the zone and under no cut.
#[tactic(auto, unfolding(crate::specs::ZoneAnswer::is_followed))]
fn is_followed<Z: ZoneStore>(alloc: Global, zone: &Z, name: &Name) -> Result<bool, NoMemory>
    ensures { IfOk result (λ is. is ≡ is_followed (Z.zone zone.now) name.now) }
{
    if !name.is_within(zone.origin()) {
        return Ok(false);
    }
    Ok(zone.cut(alloc, name)?.is_none())
}

// Adds the authority section, and the addresses of the hosts that it names.
#[tactic(auto, unfolding(crate::specs::ZoneAnswer::authority))]
fn push_authority<Z: ZoneStore>(
    alloc: Global,
    zone: &Z,
    name: &Name,
    kind: u16,
    denied: bool,
    slot: &mut Slot,
) -> Result<(), NoMemory>
    requires { slot.old.authority ≡ [] }
    ensures { OnOk result (slot.new ≡ with_authority (Z.zone zone.now) slot.old
        (authority (Z.zone zone.now) name.now kind denied)) }
{
    if denied {
        zone.copy_denial(alloc, &mut slot.authority)?;
        return zone.push_hosts(
            alloc,
            slot.answer.as_slice(),
            slot.authority.as_slice(),
            &mut slot.additional,
        );
    }
    if is_question(zone.origin(), name, kind) {
        return Ok(());
    }
    zone.push_servers(
        alloc,
        slot.answer.as_slice(),
        &mut slot.authority,
        &mut slot.additional,
    )
}

// Whether the question is for the origin's NS.
fn is_question(origin: &Name, name: &Name, kind: u16) -> bool
    ensures { result ≡ (is_same name.now origin.now && kind == kinds.NS) }
{
    kind == kind::NS && name.same(origin)
}
