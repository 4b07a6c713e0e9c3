ghost use Rattle.std.specs.Prelude.{◌≡◌, [], true, is_some, IfOk, OnOk};
ghost use Rattle.rewrite_plugin.specs.declared.rule.Rule.TheVariants as rule;
ghost use Rattle.rewrite_plugin.specs.Rewrite.{applied_by, changed_by, goes_on_by, written_of};
ghost use Rattle.rewrite_plugin.specs.Rules.{applied, searched, step_behind};
ghost use Rattle.rewrite_plugin.specs.Rules.{stepped, unchanged};

use crate::finder::Finder;
use crate::plan::RewritePlan;
use crate::plan_data::Changed;
use crate::renaming::{is_matched, rename_to, write_searched};
use crate::room::RewriteRoom;
use crate::rule::{Renaming, Rule};
use dns_data::{Copies, Name, NoMemory, Query, Text};
use std::alloc::Global;

/// Applies the rules of a block to a query, in the order of the text.
#[tactic(auto, unfolding(crate::specs::Rewrite::changed_by))]
pub fn change(
    alloc: Global,
    plans: &[RewritePlan],
    query: &Query,
    room: &mut RewriteRoom,
    changed: &mut Changed,
) -> Result<(), NoMemory>
    ensures { OnOk result (changed.new ≡ changed_by plans.now query.now) }
{
    start(query, changed)?;
    let mut is_fresh = false;
    let mut number = 0;
    let mut rest = plans;
    while let Some((plan, behind)) = rest.split_first() {
        if apply(alloc, plan, number, &mut is_fresh, room, changed)? {
            if !goes_on(plan) {
                return Ok(());
            }
        }
        number += 1;
        rest = behind;
    }
    Ok(())
}

// The query, to which nothing was applied.
fn start(query: &Query, changed: &mut Changed) -> Result<(), NoMemory>
    ensures { OnOk result (changed.new ≡ unchanged query.now) }
{
    changed.steps.clear();
    changed.query.name.set(&query.name)?;
    changed.query.kind = query.kind;
    changed.query.dnssec = query.dnssec;
    changed.query.cd = query.cd;
    changed.query.rd = query.rd;
    changed.query.edns = query.edns;
    changed.query.client = query.client;
    changed.query.port = query.port;
    changed.query.by = query.by;
    changed.query.local = query.local;
    Ok(())
}

// Whether the next rule is tried behind this one.
fn goes_on(plan: &RewritePlan) -> bool
    ensures { result ≡ goes_on_by (written_of plan.now) }
{
    plan.written.goes_on
}

// Applies a rule, whose number this is; false where it doesn't match. The room may have the text of
// the name already.
fn apply(
    alloc: Global,
    plan: &RewritePlan,
    number: usize,
    is_fresh: &mut bool,
    room: &mut RewriteRoom,
    changed: &mut Changed,
) -> Result<bool, NoMemory>
    requires { is_fresh.old ≡ true → room.old.text ≡ searched changed.old.query.name }
    ensures applied { IfOk result
        (λ done. done ≡ is_some (applied_by changed.old.query (written_of plan.now))) }
    ensures behind { OnOk result (changed.new ≡ step_behind number changed.old
        (applied_by changed.old.query (written_of plan.now))) }
    ensures text { OnOk result
        (is_fresh.new ≡ true → room.new.text ≡ searched changed.new.query.name) }
{
    match &plan.written.rule {
        Rule::Name(renaming) => {
            freshen(alloc, &changed.query.name, is_fresh, &mut room.text)?;
            if !apply_name(alloc, renaming, number, room, changed)? {
                return Ok(false);
            }
            *is_fresh = false;
            Ok(true)
        }
        Rule::Type(from, to) => apply_type(alloc, *from, *to, number, changed),
        Rule::Ttl(from, _) => {
            freshen(alloc, &changed.query.name, is_fresh, &mut room.text)?;
            if !is_matched(from, room.text.as_str(), &mut room.turning)? {
                return Ok(false);
            }
            note(alloc, number, changed)?;
            Ok(true)
        }
    }
}

// Makes the text of a name, where it isn't that already.
fn freshen(alloc: Global, name: &Name, is_fresh: &mut bool, text: &mut Text) -> Result<(), NoMemory>
    requires { is_fresh.old ≡ true → text.old ≡ searched name.now }
    ensures { OnOk result (text.new ≡ searched name.now) }
{
    if *is_fresh {
        return Ok(());
    }
    write_searched(alloc, name, text)?;
    *is_fresh = true;
    Ok(())
}

// Gives the query another name, where the rule matches. The room has the text of its name.
fn apply_name(
    alloc: Global,
    renaming: &Renaming<Finder>,
    number: usize,
    room: &mut RewriteRoom,
    changed: &mut Changed,
) -> Result<bool, NoMemory>
    requires text { room.old.text ≡ searched changed.old.query.name }
    ensures applied { IfOk result
        (λ done. done ≡ is_some (applied (rule.Name renaming.now) changed.old.query)) }
    ensures behind { OnOk result (changed.new ≡ step_behind number changed.old
        (applied (rule.Name renaming.now) changed.old.query)) }
    ensures text { room.new.text ≡ room.old.text }
{
    let text = room.text.as_str();
    let before = changed.query.name.copy(alloc)?;
    let name = &mut changed.query.name;
    if !rename_to(alloc, renaming, text, &mut room.turning, name)? {
        return Ok(false);
    }
    changed
        .steps
        .push(alloc, number, &before, &changed.query.name)?;
    Ok(true)
}

fn apply_type(
    alloc: Global,
    from: u16,
    to: u16,
    number: usize,
    changed: &mut Changed,
) -> Result<bool, NoMemory>
    ensures applied { IfOk result
        (λ done. done ≡ is_some (applied (rule.Type from to) changed.old.query)) }
    ensures behind { OnOk result (changed.new ≡ step_behind number changed.old
        (applied (rule.Type from to) changed.old.query)) }
{
    if changed.query.kind != from {
        return Ok(false);
    }
    note(alloc, number, changed)?;
    changed.query.kind = to;
    Ok(true)
}

// Notes a rule that leaves the name.
fn note(alloc: Global, number: usize, changed: &mut Changed) -> Result<(), NoMemory>
    ensures { OnOk result (changed.new ≡ stepped number changed.old changed.old.query) }
{
    let name = &changed.query.name;
    changed.steps.push(alloc, number, name, name)
}
