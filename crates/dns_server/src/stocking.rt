//! The stock of a run: the first extra of each name is its judge, and all others are spare.
ghost use Rattle.std.specs.Prelude.{◌≡◌, ◌≤◌, [], length, map, nat_eq, IfOk, IfErr};
ghost use Rattle.std.specs.Cmp.Lexicographic.{pointwise};
ghost use Rattle.std.specs.Vec.{vec_capacity};
ghost use Rattle.chain_meaning.specs.{named_in};
ghost use Rattle.plugin_api.specs.{Obey};
ghost use Rattle.dns_server.specs.Stocking.{PartsExtras};

use extra_stock::Stock;
use plugin_api::{Extra, Rulebook};
use std::alloc::Global;

/// A stock of these extras, in which none is a judge.
pub(crate) fn unsorted<E>(alloc: Global, extras: Vec<E>) -> Stock<E>
    ensures judges { result.judges.items ≡ [] }
    ensures spare { result.spare ≡ extras }
{
    Stock {
        judges: Vec::new(alloc),
        spare: extras,
    }
}

/// The first extra of each name becomes its judge, and all others are spare, with room for as many
/// as there are extras. Without memory they come back.
pub(crate) fn sorted<B: Rulebook, E: Extra>(
    alloc: Global,
    extras: Vec<E>,
) -> Result<Stock<E>, Vec<E>>
    requires obey { Obey B.taken B.said E.title E.takes E.ruling extras.items }
    ensures parts { IfOk result (λ stock. PartsExtras E.title extras.items stock.judges.items
        stock.spare.items) }
    ensures judges { IfOk result
        (λ stock. Obey B.taken B.said E.title E.takes E.ruling stock.judges.items) }
    ensures spare { IfOk result
        (λ stock. Obey B.taken B.said E.title E.takes E.ruling stock.spare.items) }
    ensures room { IfOk result (λ stock. length extras.items ≤ vec_capacity stock.spare) }
    ensures err { IfErr result (λ back. back ≡ extras) }
{
    let Ok(mut judges) = Vec::with_capacity(alloc, extras.len()) else {
        return Err(extras);
    };
    let Ok(mut spare) = Vec::with_capacity(alloc, extras.len()) else {
        return Err(extras);
    };
    part_extras::<B, E>(extras, &mut judges, &mut spare);
    Ok(Stock { judges, spare })
}

// Parts extras into the first of each name and all others, each in their order.
fn part_extras<B: Rulebook, E: Extra>(extras: Vec<E>, judges: &mut Vec<E>, spare: &mut Vec<E>)
    requires none { (judges.old.items ≡ []) × (spare.old.items ≡ []) }
    requires room { (length extras.items ≤ vec_capacity judges.old)
        × (length extras.items ≤ vec_capacity spare.old) }
    requires obey { Obey B.taken B.said E.title E.takes E.ruling extras.items }
    ensures parts { PartsExtras E.title extras.items judges.new.items spare.new.items }
    ensures judges { Obey B.taken B.said E.title E.takes E.ruling judges.new.items }
    ensures spare { Obey B.taken B.said E.title E.takes E.ruling spare.new.items }
    ensures capacity { vec_capacity spare.new ≡ vec_capacity spare.old }
{
    for extra in extras {
        if is_judged(judges.as_slice(), extra.name()) {
            spare.push_reserved(extra);
        } else {
            judges.push_reserved(extra);
        }
    }
}

// Whether one of these has the name.
fn is_judged<E: Extra>(judges: &[E], name: &[u8]) -> bool
    ensures { result ≡ named_in (map E.title judges.now) name.now }
{
    for judge in judges {
        if is_same(name, judge.name()) {
            return true;
        }
    }
    false
}

// Whether two names are the same, letter by letter.
fn is_same(name: &[u8], other: &[u8]) -> bool
    ensures { result ≡ pointwise nat_eq name.now other.now }
{
    name == other
}
