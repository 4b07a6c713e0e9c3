//! The names of the steps of a block's chain.

ghost use Rattle.std.specs.Prelude.{◌≡◌, [], ◌∷◌, ◌++◌, map, IfOk, OnOk};
ghost use Rattle.chain_meaning.specs.Steps.{extras_of, has_rank};
ghost use Rattle.chain_trail.specs.Names.{all_names, back_names, first_name, front_names};
ghost use Rattle.chain_trail.specs.Names.{name_by, step_names};

use crate::reached::{StepName, StepNames};
use dns_data::{Copies, Directive, NoMemory};
use plugin_api::{Rank, rank};
use std::alloc::Global;

/// Of the chain of a block with these directives, in the order of the steps.
#[tactic(auto, unfolding(crate::specs::Names::step_names))]
pub fn step_names(alloc: Global, directives: &[Directive]) -> Result<StepNames, NoMemory>
    ensures { IfOk result (λ names. names ≡ step_names directives.now) }
{
    let mut names = StepNames::new(alloc);
    push_front(alloc, directives, &mut names)?;
    push_extras(alloc, directives, &mut names)?;
    push_first(alloc, Rank::Cache, directives, &mut names)?;
    push_back(alloc, directives, &mut names)?;
    Ok(names)
}

// The steps in front of the extras.
fn push_front(
    alloc: Global,
    directives: &[Directive],
    names: &mut StepNames,
) -> Result<(), NoMemory>
    ensures { OnOk result (names.new ≡ names.old ++ front_names directives.now) }
{
    push_first(alloc, Rank::Errors, directives, names)?;
    push_all(alloc, Rank::Log, directives, names)?;
    push_first(alloc, Rank::Dns64, directives, names)?;
    push_first(alloc, Rank::Acl, directives, names)?;
    push_first(alloc, Rank::Any, directives, names)
}

// The steps behind the cache.
fn push_back(alloc: Global, directives: &[Directive], names: &mut StepNames) -> Result<(), NoMemory>
    ensures { OnOk result (names.new ≡ names.old ++ back_names directives.now) }
{
    push_first(alloc, Rank::Rewrite, directives, names)?;
    push_first(alloc, Rank::Template, directives, names)?;
    push_all(alloc, Rank::Hosts, directives, names)?;
    push_first(alloc, Rank::File, directives, names)?;
    push_first(alloc, Rank::Forward, directives, names)?;
    push_first(alloc, Rank::Whoami, directives, names)
}

// The first directive of a rank.
fn push_first(
    alloc: Global,
    rank: Rank,
    directives: &[Directive],
    names: &mut StepNames,
) -> Result<(), NoMemory>
    ensures { OnOk result (names.new ≡ names.old ++ first_name rank directives.now) }
{
    let Some((directive, rest)) = directives.split_first() else {
        return Ok(());
    };
    if has_rank(rank, directive) {
        return push(alloc, directive, names);
    }
    push_first(alloc, rank, rest, names)
}

// All directives of a rank.
fn push_all(
    alloc: Global,
    rank: Rank,
    directives: &[Directive],
    names: &mut StepNames,
) -> Result<(), NoMemory>
    ensures { OnOk result (names.new ≡ names.old ++ all_names rank directives.now) }
{
    let Some((directive, rest)) = directives.split_first() else {
        return Ok(());
    };
    if has_rank(rank, directive) {
        push(alloc, directive, names)?;
    }
    push_all(alloc, rank, rest, names)
}

// All directives of extras.
fn push_extras(
    alloc: Global,
    directives: &[Directive],
    names: &mut StepNames,
) -> Result<(), NoMemory>
    ensures { OnOk result (names.new ≡ names.old ++ map name_by (extras_of directives.now)) }
{
    let Some((directive, rest)) = directives.split_first() else {
        return Ok(());
    };
    if rank(&directive.name).is_none() {
        push(alloc, directive, names)?;
    }
    push_extras(alloc, rest, names)
}

fn push(alloc: Global, directive: &Directive, names: &mut StepNames) -> Result<(), NoMemory>
    ensures { OnOk result (names.new ≡ names.old ++ name_by directive.now ∷ []) }
{
    names.push(StepName {
        line: directive.line,
        name: directive.name.copy(alloc)?,
    })
}

// Whether a directive has this rank.
fn has_rank(of: Rank, directive: &Directive) -> bool
    ensures { result ≡ has_rank of directive.now }
{
    match rank(&directive.name) {
        Some(other) => other.order() == of.order(),
        None => false,
    }
}
