//! What a cache and the steps behind it mean: a look, and where it found nothing what the rest
//! means and what is put.

ghost use Rattle.std.specs.Prelude.{◌≡◌, ◌≤◌, None, IfOk, length, map};
ghost use Rattle.cache_rules.specs.{aged};
ghost use Rattle.chain_build.specs.Compiled.{back_of};
ghost use Rattle.chain_build.specs.Plans.{behind_of, inner_of};
ghost use Rattle.chain_meaning.specs.Caching.{taken};
ghost use Rattle.chain_trail.specs.Trail.{found_by, head_name, tail_names, traced};
ghost use Rattle.chain_trail.specs.Trails.{Trails};
ghost use Rattle.chain_meaning.specs.declared.decision.Decision.TheVariants as decision;

use crate::asking::Asking;
use crate::reaching::{reach, reach_end, rest_of};
use crate::restoring::restored;
use crate::saying::back_means;
use cache_rules::{CachePlan, aged};
use chain_build::BackAnswerer;
use chain_meaning::Decision;
use chain_trail::{StepName, Trail, decision_say, rewrite_say};
use dns_data::{NoMemory, Slot};
use outside::{Entry, Mark};
use plain_marks::{Meant, Missed, kept_by, take_look};
use plugin_api::{Cause, Code};
use rewrite_plugin::{Changed, RewriteRoom, change};

/// What a cache means, where the chain has one, and what stands behind it.
pub(crate) fn decide_inner<'a>(
    asking: Asking<'_>,
    names: &[StepName],
    marks: &'a [Mark],
    trail: &mut Trail,
) -> Result<Meant<'a, Decision>, NoMemory>
    ensures { IfOk result (Trails
        (traced (inner_of asking.entry.chain.now) names.now asking.entry.query.now)
        marks.now trail.old trail.new) }
{
    let Some(plan) = &asking.chain.cache else {
        return decide_behind(asking, names, marks, trail);
    };
    if !plan.covers(&asking.query.name) {
        reach(asking.alloc, names, "pass", trail)?;
        return decide_behind(asking, rest_of(names), marks, trail);
    }
    match take_look(asking.alloc, asking.query, marks)? {
        Meant::Done(look, left) => {
            let (moment, entry) = look;
            let cached = Cached {
                asking,
                plan,
                moment,
            };
            found(&cached, entry, names, left, trail)
        }
        Meant::More => Ok(Meant::More),
        Meant::Off(left) => Ok(Meant::Off(left)),
    }
}

// A query that a cache is asked, and when, in milliseconds.
#[derive(Clone, Copy)]
struct Cached<'a> {
    asking: Asking<'a>,
    plan: &'a CachePlan,
    moment: u64,
}

// A hit decides; on a miss the rest does, and its reply is put where it is kept.
fn found<'a>(
    cached: &Cached<'_>,
    entry: Option<Entry>,
    names: &[StepName],
    marks: &'a [Mark],
    trail: &mut Trail,
) -> Result<Meant<'a, Decision>, NoMemory>
    ensures { IfOk result (Trails (found_by (head_name names.now)
        (traced (behind_of cached.now.asking.chain.now) (tail_names names.now))
        cached.now.plan.now cached.now.asking.query.now cached.now.moment entry)
        marks.now trail.old trail.new) }
{
    match entry {
        Some(entry) => {
            reach(cached.asking.alloc, names, "hit", trail)?;
            Ok(Meant::Done(aged_reply(cached, &entry)?, marks))
        }
        None => missed(cached, names, marks, trail),
    }
}

// The reply of a hit.
fn aged_reply(cached: &Cached<'_>, entry: &Entry) -> Result<Decision, NoMemory>
    ensures { IfOk result (λ v. v ≡ decision.Reply
        (aged cached.now.plan.now entry.now cached.now.moment)) }
{
    let mut slot = Slot::new(cached.asking.alloc);
    aged(
        cached.asking.alloc,
        cached.plan,
        entry,
        cached.moment,
        &mut slot,
    )?;
    Ok(Decision::Reply(slot.to_answer(cached.asking.alloc)?))
}

// A miss.
fn missed<'a>(
    cached: &Cached<'_>,
    names: &[StepName],
    marks: &'a [Mark],
    trail: &mut Trail,
) -> Result<Meant<'a, Decision>, NoMemory>
    ensures { IfOk result (Trails (found_by (head_name names.now)
        (traced (behind_of cached.now.asking.chain.now) (tail_names names.now))
        cached.now.plan.now cached.now.asking.query.now cached.now.moment None)
        marks.now trail.old trail.new) }
{
    let asking = cached.asking;
    reach(asking.alloc, names, "miss", trail)?;
    match decide_behind(asking, rest_of(names), marks, trail)? {
        Meant::Done(decision, end) => {
            let missed = Missed {
                alloc: asking.alloc,
                plan: cached.plan,
                query: asking.query,
                moment: cached.moment,
            };
            kept_by(&missed, taken_of(marks, end), decision, end)
        }
        Meant::More => Ok(Meant::More),
        Meant::Off(left) => Ok(Meant::Off(left)),
    }
}

// The marks that were taken where these are left.
fn taken_of<'a>(marks: &'a [Mark], left: &[Mark]) -> &'a [Mark]
    requires { length left.now ≤ length marks.now }
    ensures { result.now ≡ taken marks.now left.now }
{
    &marks[..marks.len() - left.len()]
}

// What stands behind a cache: the rest decides for the query behind the rules, and its reply is
// restored.
fn decide_behind<'a>(
    asking: Asking<'_>,
    names: &[StepName],
    marks: &'a [Mark],
    trail: &mut Trail,
) -> Result<Meant<'a, Decision>, NoMemory>
    ensures { IfOk result (Trails
        (traced (behind_of asking.entry.chain.now) names.now asking.entry.query.now)
        marks.now trail.old trail.new) }
{
    let rules = asking.chain.rewrites.as_slice();
    let back = asking.chain.back.as_slice();
    if rules.len() == 0 {
        return decide_back(asking, back, names, marks, trail);
    }
    let mut room = RewriteRoom::new(asking.alloc);
    let mut changed = Changed::new(asking.alloc);
    change(asking.alloc, rules, asking.query, &mut room, &mut changed)?;
    let say = rewrite_say(asking.alloc, &changed)?;
    reach(asking.alloc, names, say.as_str(), trail)?;
    let inner = Asking {
        alloc: asking.alloc,
        chain: asking.chain,
        query: &changed.query,
    };
    let meant = decide_back(inner, back, rest_of(names), marks, trail)?;
    restored(asking.alloc, rules, &changed, &mut room, meant)
}

// What the plugins that answer mean, behind a cache and the rules of `rewrite`. The end is
// SERVFAIL.
fn decide_back<'a>(
    asking: Asking<'_>,
    back: &[BackAnswerer],
    names: &[StepName],
    marks: &'a [Mark],
    trail: &mut Trail,
) -> Result<Meant<'a, Decision>, NoMemory>
    ensures { IfOk result (Trails
        (traced (map back_of back.now) names.now asking.entry.query.now)
        marks.now trail.old trail.new) }
{
    let Some((plugin, others)) = back.split_first() else {
        reach_end(asking.alloc, "", trail)?;
        let decision = Decision::Code(Code::ServFail, Cause::EndOfChain);
        return Ok(Meant::Done(decision, marks));
    };
    match back_means(asking.alloc, plugin, asking.query, marks)? {
        Meant::Done(said, left) => match said {
            Some(decision) => {
                reach(asking.alloc, names, decision_say(&decision), trail)?;
                Ok(Meant::Done(decision, left))
            }
            None => {
                reach(asking.alloc, names, "pass", trail)?;
                decide_back(asking, others, rest_of(names), left, trail)
            }
        },
        Meant::More => Ok(Meant::More),
        Meant::Off(left) => Ok(Meant::Off(left)),
    }
}
