ghost use Rattle.std.specs.Prelude.{◌≡◌, ◌<◌, ◌++◌, ◌∷◌, [], map, length, take, drop, IfOk, IfSome};
ghost use Rattle.std.specs.Prelude.{OnOk};
ghost use Rattle.dns_data.specs.{Changes, IsFormed};
ghost use Rattle.rewrite_plugin.specs.Answers.{all_restored, data_or, owned_or, record_restored};
ghost use Rattle.rewrite_plugin.specs.Answers.{replaced_data, replaced_name};
ghost use Rattle.rewrite_plugin.specs.Answers.{sections_restored, with_ttl};
ghost use Rattle.rewrite_plugin.specs.declared.rule.Answering.TheVariants as answering;
ghost use Rattle.rewrite_plugin.specs.declared.steps.Step.{Step};
ghost use Rattle.rewrite_plugin.specs.Rewrite.{restored, restored_by, written_at, written_of};

use crate::finder::Finder;
use crate::plan::RewritePlan;
use crate::plan_data::Changed;
use crate::renaming::{renamed_by, write_searched};
use crate::room::RewriteRoom;
use crate::rule::{Answering, Replacing, Rule, Seconds};
use crate::steps::Step;
use dns_data::{Copies, Name, NoMemory, Rdata, Record, RecordRoom, Slot};
use std::alloc::Global;
use std::mem;

/// Lets the rules that were applied act on an answer, in the order in which they were.
pub fn restore(
    alloc: Global,
    plans: &[RewritePlan],
    changed: &Changed,
    room: &mut RewriteRoom,
    slot: &mut Slot,
) -> Result<(), NoMemory>
    ensures { OnOk result (slot.new ≡ restored plans.now changed.now.steps slot.old) }
{
    let mut rest = changed.steps.as_slice();
    while let Some((step, behind)) = rest.split_first() {
        restore_step(alloc, plans, step, room, slot)?;
        rest = behind;
    }
    Ok(())
}

fn restore_step(
    alloc: Global,
    plans: &[RewritePlan],
    step: &Step,
    room: &mut RewriteRoom,
    slot: &mut Slot,
) -> Result<(), NoMemory>
    ensures { OnOk result
        (slot.new ≡ restored_by (written_at plans.now step.now.rule) step.now slot.old) }
{
    if step.rule < plans.len() {
        return restore_rule(alloc, &plans[step.rule], step, room, slot);
    }
    Ok(())
}

fn restore_rule(
    alloc: Global,
    plan: &RewritePlan,
    step: &Step,
    room: &mut RewriteRoom,
    slot: &mut Slot,
) -> Result<(), NoMemory>
    ensures { OnOk result (slot.new ≡ restored_by (written_of plan.now) step.now slot.old) }
{
    match &plan.written.rule {
        Rule::Name(renaming) => restore_all(alloc, renaming.answers.as_slice(), step, room, slot),
        Rule::Type(_, _) => Ok(()),
        Rule::Ttl(_, seconds) => {
            set_ttls(seconds, &mut slot.answer);
            Ok(())
        }
    }
}

// The records of the answer section get a TTL.
fn set_ttls(seconds: &Seconds, section: &mut RecordRoom)
    ensures { section.new ≡ map (with_ttl seconds.now) section.old }
{
    let ttl = seconds.number();
    let mut index = 0;
    while index < section.len() {
        section.set_ttl(index, ttl);
        index += 1;
    }
}

// What the `answer`s of a rule do.
fn restore_all(
    alloc: Global,
    answers: &[Answering<Finder>],
    step: &Step,
    room: &mut RewriteRoom,
    slot: &mut Slot,
) -> Result<(), NoMemory>
    ensures { OnOk result (slot.new ≡ all_restored answers.now step.now slot.old) }
{
    let mut rest = answers;
    while let Some((answering, behind)) = rest.split_first() {
        restore_sections(alloc, answering, step, room, slot)?;
        rest = behind;
    }
    Ok(())
}

// What an `answer` does to the three sections. It is asked once which one it is, and not again at
// each section, which costs a query some 80 instructions.
fn restore_sections(
    alloc: Global,
    answering: &Answering<Finder>,
    step: &Step,
    room: &mut RewriteRoom,
    slot: &mut Slot,
) -> Result<(), NoMemory>
    ensures { OnOk result (slot.new ≡ sections_restored answering.now step.now slot.old) }
{
    match answering {
        Answering::Auto => restore_all_owners(step, slot),
        Answering::Name(replacing) => rename_all_owners(alloc, replacing, room, slot),
        Answering::Value(replacing) => rename_all_data(alloc, replacing, room, slot),
    }
}

fn restore_all_owners(step: &Step, slot: &mut Slot) -> Result<(), NoMemory>
    ensures { OnOk result (slot.new ≡ sections_restored answering.Auto step.now slot.old) }
{
    restore_owners(step, &mut slot.answer)?;
    restore_owners(step, &mut slot.authority)?;
    restore_owners(step, &mut slot.additional)
}

fn rename_all_owners(
    alloc: Global,
    replacing: &Replacing<Finder>,
    room: &mut RewriteRoom,
    slot: &mut Slot,
) -> Result<(), NoMemory>
    ensures { (step : Step) → OnOk result
        (slot.new ≡ sections_restored (answering.Name replacing.now) step slot.old) }
{
    rename_owners(alloc, replacing, room, &mut slot.answer)?;
    rename_owners(alloc, replacing, room, &mut slot.authority)?;
    rename_owners(alloc, replacing, room, &mut slot.additional)
}

fn rename_all_data(
    alloc: Global,
    replacing: &Replacing<Finder>,
    room: &mut RewriteRoom,
    slot: &mut Slot,
) -> Result<(), NoMemory>
    ensures { (step : Step) → OnOk result
        (slot.new ≡ sections_restored (answering.Value replacing.now) step slot.old) }
{
    rename_data(alloc, replacing, room, &mut slot.answer)?;
    rename_data(alloc, replacing, room, &mut slot.authority)?;
    rename_data(alloc, replacing, room, &mut slot.additional)
}

// Owners that are the name behind a rule get the name before it.
fn restore_owners(step: &Step, section: &mut RecordRoom) -> Result<(), NoMemory>
    ensures { OnOk result
        (section.new ≡ map (record_restored answering.Auto step.now) section.old) }
{
    let mut index = 0;
    while index < section.len() {
        restore_owner(step, index, section)?;
        index += 1;
    }
    Ok(())
}

fn restore_owner(step: &Step, index: usize, section: &mut RecordRoom) -> Result<(), NoMemory>
    requires { index < length section.old }
    ensures { OnOk result
        (Changes (record_restored answering.Auto step.now) index section.old section.new) }
{
    let entry = &section.as_slice()[index];
    if entry.owner.same(&step.after) {
        return section.set_owner(index, &step.before);
    }
    Ok(())
}

// Owners that match are renamed. A record with the owner of the one in front of it costs no search.
fn rename_owners(
    alloc: Global,
    replacing: &Replacing<Finder>,
    room: &mut RewriteRoom,
    section: &mut RecordRoom,
) -> Result<(), NoMemory>
    ensures { OnOk result (section.new
        ≡ map (λ r. owned_or r (replaced_name replacing.now r.owner)) section.old) }
{
    let mut last = None;
    let mut index = 0;
    while index < section.len() {
        last = Some(rename_owner(alloc, replacing, room, index, section, last)?);
        index += 1;
    }
    Ok(())
}

// The owner of a record, and the name that a pattern made of it.
#[derive(Debug, Drop)]
struct LastOwner {
    from: Name,
    to: Option<Name>,
}

// Renames one where it matches, and gives what its name became.
fn rename_owner(
    alloc: Global,
    replacing: &Replacing<Finder>,
    room: &mut RewriteRoom,
    index: usize,
    section: &mut RecordRoom,
    last: Option<LastOwner>,
) -> Result<LastOwner, NoMemory>
    requires index { index < length section.old }
    requires last { IfSome last (λ known. known.to ≡ replaced_name replacing.now known.from) }
    ensures section { OnOk result (Changes (λ r. owned_or r (replaced_name replacing.now r.owner))
        index section.old section.new) }
    ensures known { IfOk result (λ known. known.to ≡ replaced_name replacing.now known.from) }
{
    let entry = &section.as_slice()[index];
    let known = renamed(alloc, replacing, room, &entry.owner, last)?;
    set_made(&known.to, index, section)?;
    Ok(known)
}

fn set_made(made: &Option<Name>, index: usize, section: &mut RecordRoom) -> Result<(), NoMemory>
    requires { index < length section.old }
    ensures { OnOk result (Changes (λ r. owned_or r made.now) index section.old section.new) }
{
    match made {
        Some(owner) => section.set_owner(index, owner),
        None => Ok(()),
    }
}

// What a name becomes, which is known where it is the last one.
fn renamed(
    alloc: Global,
    replacing: &Replacing<Finder>,
    room: &mut RewriteRoom,
    name: &Name,
    last: Option<LastOwner>,
) -> Result<LastOwner, NoMemory>
    requires last { IfSome last (λ known. known.to ≡ replaced_name replacing.now known.from) }
    ensures from { IfOk result (λ known. known.from ≡ name.now) }
    ensures to { IfOk result (λ known. known.to ≡ replaced_name replacing.now name.now) }
{
    if let Some(known) = last {
        if known.from.equals(name) {
            return Ok(known);
        }
    }
    let to = replaced_name(alloc, replacing, name, room)?;
    let from = name.copy(alloc)?;
    Ok(LastOwner { from, to })
}

// Names in the data of records are renamed where they match.
fn rename_data(
    alloc: Global,
    replacing: &Replacing<Finder>,
    room: &mut RewriteRoom,
    section: &mut RecordRoom,
) -> Result<(), NoMemory>
    ensures { OnOk result (section.new
        ≡ map (λ r. data_or r (replaced_data replacing.now r.rdata)) section.old) }
{
    if section.len() == 0 {
        return Ok(());
    }
    room.spare.clear();
    let mut rest = section.as_slice();
    while let Some((entry, behind)) = rest.split_first() {
        push_replaced(alloc, replacing, entry, room)?;
        rest = behind;
    }
    mem::swap(section, &mut room.spare);
    Ok(())
}

// Adds a record, with another name in its data where that matches.
fn push_replaced(
    alloc: Global,
    replacing: &Replacing<Finder>,
    entry: &Record,
    room: &mut RewriteRoom,
) -> Result<(), NoMemory>
    ensures { OnOk result
        (room.new.spare ≡ room.old.spare
        ++ data_or entry.now (replaced_data replacing.now entry.now.rdata) ∷ []) }
{
    match replaced_data(alloc, replacing, &entry.rdata, room)? {
        Some(rdata) => {
            let made = Record::new(Name::root(alloc), entry.class, entry.ttl, rdata);
            room.spare.push_copy(alloc, &entry.owner, entry.ttl, &made)
        }
        None => room.spare.push(alloc, entry),
    }
}

// The name that a pattern makes of another one.
fn replaced_name(
    alloc: Global,
    replacing: &Replacing<Finder>,
    name: &Name,
    room: &mut RewriteRoom,
) -> Result<Option<Name>, NoMemory>
    ensures made { IfOk result (λ made. made ≡ replaced_name replacing.now name.now) }
    ensures spare { room.new.spare ≡ room.old.spare }
{
    write_searched(alloc, name, &mut room.text)?;
    let text = room.text.as_str();
    let turning = &mut room.turning;
    renamed_by(alloc, &replacing.pattern, &replacing.to, text, turning)
}

// The data of a record with the name that a pattern makes of its own.
fn replaced_data(
    alloc: Global,
    replacing: &Replacing<Finder>,
    rdata: &Rdata,
    room: &mut RewriteRoom,
) -> Result<Option<Rdata>, NoMemory>
    ensures made { IfOk result (λ made. made ≡ replaced_data replacing.now rdata.now) }
    ensures form { IfOk result (λ made. IfSome made IsFormed) }
    ensures spare { room.new.spare ≡ room.old.spare }
{
    match rdata {
        Rdata::Cname(name) => match replaced_name(alloc, replacing, name, room)? {
            Some(name) => Ok(Some(Rdata::Cname(name))),
            None => Ok(None),
        },
        Rdata::Ns(name) => match replaced_name(alloc, replacing, name, room)? {
            Some(name) => Ok(Some(Rdata::Ns(name))),
            None => Ok(None),
        },
        Rdata::Ptr(name) => match replaced_name(alloc, replacing, name, room)? {
            Some(name) => Ok(Some(Rdata::Ptr(name))),
            None => Ok(None),
        },
        Rdata::Mx(preference, name) => {
            match replaced_name(alloc, replacing, name, room)? {
                Some(name) => Ok(Some(Rdata::Mx(*preference, name))),
                None => Ok(None),
            }
        }
        Rdata::Srv(priority, weight, port, name) => {
            match replaced_name(alloc, replacing, name, room)? {
                Some(name) => Ok(Some(Rdata::Srv(*priority, *weight, *port, name))),
                None => Ok(None),
            }
        }
        _ => Ok(None),
    }
}
