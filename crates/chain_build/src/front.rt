ghost use Rattle.dns_data.specs.declared.limit.TheConstants as limits;
ghost use Rattle.std.specs.Prelude.{◌≡◌, ◌<◌, ◌++◌, map};
ghost use Rattle.dns_data.specs.Message.{no_answer};
ghost use Rattle.acl_plugin.specs.{acl_say};
ghost use Rattle.chain_meaning.specs.CallsByRun.{numbers_in};
ghost use Rattle.chain_meaning.specs.Mean.{mean, nothing};
ghost use Rattle.chain_build.specs.Compiled.{front_answerer, front_of, middle_of};
ghost use Rattle.chain_build.specs.Giving.{gave};
ghost use Rattle.chain_build.specs.LoggedWalks.{TakesBy, TakesCalls, chain_runs, taking};
ghost use Rattle.chain_build.specs.Plans.{inner_of, others_of, rest_of};
ghost use Rattle.chain_build.specs.Uses.{IsUsed, SameUses};
ghost use Rattle.chain_build.specs.Walking.{Answered};

use crate::block::BlockChain;
use crate::block_chain::{ChainRest, FrontAnswerer, FrontStep, MiddleRest};
use crate::block_uses::BlockUses;
use crate::caching::run_inner;
use crate::ended::Ended;
use crate::extras::Extras;
use crate::given::Given;
use crate::noting::{note_error, note_query};
use crate::room::{FrontRoom, WalkRoom};
use crate::translating::run_dns64;
use crate::walk::Walk;
use acl_plugin::{AclSay, decide};
use dns_data::{NoMemory, Query, Slot, kind, rcode};
use outside::Side;
use plain_plugins::any_answer;
use std::alloc::Global;
use std::sync::Wait;

/// Runs what is left of a chain: its steps that note, and then what stands behind these. The slot
/// is clear.
pub fn run_front<'a, R: Wait, S: Side, X: Extras>(
    walk: &Walk<'_, R>,
    steps: ChainRest<'a>,
    uses: &mut BlockUses,
    extras: &mut X,
    side: &mut S,
    room: &mut FrontRoom,
) -> Result<Given<'a>, NoMemory>
    requires clear { room.old.walk.plugins.slot ≡ no_answer }
    requires used { IsUsed steps.behind.now uses.old }
    ensures same { SameUses uses.old uses.new }
    ensures takes { TakesCalls
        (chain_runs (map front_of steps.entry.front.now
        ++ rest_of (X.says extras.old) steps.entry.behind.now) walk.now.query.now)
        (mean (map front_of steps.entry.front.now
        ++ rest_of (X.says extras.old) steps.entry.behind.now) walk.now.query.now)
        (gave result room.new.walk.plugins.slot) (taking (S.state side.old) uses.old)
        (taking (S.state side.new) uses.new) }
    ensures stays { X.says extras.new ≡ X.says extras.old }
    ensures set { X.directives extras.new ≡ X.directives extras.old }
{
    let behind = steps.behind;
    let Some((step, front)) = steps.front.split_first() else {
        return run_dns64(walk, behind, uses, extras, side, room);
    };
    let rest = ChainRest { front, behind };
    match step {
        FrontStep::Errors => {
            let given = run_front(walk, rest, uses, extras, side, room)?;
            note_error(walk.alloc, walk.query, given, side)
        }
        FrontStep::Log(plan) => {
            let given = run_front(walk, rest, uses, extras, side, room)?;
            note_query(
                walk.alloc,
                plan,
                walk.query,
                given,
                &room.walk.plugins.slot,
                side,
            )
        }
    }
}

/// Runs what is left of a chain behind `dns64`: its plugins in front of a cache, plugins of others
/// where these end, and then a cache, and what stands behind it. The slot is clear.
pub fn run_middle<'a, R: Wait, S: Side, X: Extras>(
    walk: &Walk<'_, R>,
    steps: MiddleRest<'a>,
    uses: &mut BlockUses,
    extras: &mut X,
    side: &mut S,
    room: &mut WalkRoom,
) -> Result<Given<'a>, NoMemory>
    requires clear { room.old.plugins.slot ≡ no_answer }
    requires used { IsUsed steps.behind.now uses.old }
    ensures same { SameUses uses.old uses.new }
    ensures takes { TakesBy
        (numbers_in (inner_of steps.entry.behind.now) walk.now.query.now)
        (mean (map middle_of steps.entry.middle.now
        ++ others_of (X.says extras.old) steps.entry.behind.now) walk.now.query.now)
        (gave result room.new.plugins.slot) (taking (S.state side.old) uses.old)
        (taking (S.state side.new) uses.new) }
    ensures stays { X.says extras.new ≡ X.says extras.old }
    ensures set { X.directives extras.new ≡ X.directives extras.old }
{
    let behind = steps.behind;
    let Some((plugin, middle)) = steps.middle.split_first() else {
        return run_others(walk, behind, uses, extras, side, room);
    };
    match front_answer(walk.alloc, plugin, walk.query, &mut room.plugins.slot)? {
        Some(ended) => Ok(Given::Ended(ended)),
        None => {
            let rest = MiddleRest { middle, behind };
            run_middle(walk, rest, uses, extras, side, room)
        }
    }
}

// Asks plugins of others, and where they go on runs what stands behind them.
#[inline(always)]
#[tactic(auto, using(crate::proofs::LoggedWalks::others_starved_by, crate::proofs::LoggedWalks::others_say_by, crate::proofs::LoggedWalks::others_go_by))]
fn run_others<'a, R: Wait, S: Side, X: Extras>(
    walk: &Walk<'_, R>,
    chain: &'a BlockChain,
    uses: &mut BlockUses,
    extras: &mut X,
    side: &mut S,
    room: &mut WalkRoom,
) -> Result<Given<'a>, NoMemory>
    requires clear { room.old.plugins.slot ≡ no_answer }
    requires used { IsUsed chain.now uses.old }
    ensures same { SameUses uses.old uses.new }
    ensures takes { TakesBy (numbers_in (inner_of chain.now) walk.now.query.now)
        (mean (others_of (X.says extras.old) chain.now) walk.now.query.now)
        (gave result room.new.plugins.slot) (taking (S.state side.old) uses.old)
        (taking (S.state side.new) uses.new) }
    ensures stays { X.says extras.new ≡ X.says extras.old }
    ensures set { X.directives extras.new ≡ X.directives extras.old }
{
    match extras.answer(walk.alloc, walk.query, &mut room.plugins.slot)? {
        Some(ended) => Ok(Given::Ended(ended)),
        None => run_inner(walk, chain, uses, side, room),
    }
}

/// What a plugin in front of a cache answers, with the answer of a reply in the slot, which is
/// clear. None: it goes on.
#[tactic(auto, unfolding(chain_meaning::specs::Mean::answer_of))]
pub fn front_answer(
    alloc: Global,
    plugin: &FrontAnswerer,
    query: &Query,
    slot: &mut Slot,
) -> Result<Option<Ended<'static>>, NoMemory>
    requires clear { slot.old ≡ no_answer }
    ensures { Answered (front_answerer plugin.now) query.now slot.old slot.new result }
{
    match plugin {
        FrontAnswerer::Acl(plans) => match decide(plans.as_slice(), query) {
            AclSay::GoOn => Ok(None),
            AclSay::Block => {
                set_code(slot, rcode::REFUSED);
                Ok(Some(Ended::Reply))
            }
            AclSay::Filter => Ok(Some(Ended::Reply)),
            AclSay::Drop => Ok(Some(Ended::Drop)),
        },
        FrontAnswerer::Any => {
            if query.kind != kind::ANY {
                return Ok(None);
            }
            any_answer(alloc, query, slot)?;
            Ok(Some(Ended::Reply))
        }
    }
}

// Becomes an RCODE without records.
fn set_code(slot: &mut Slot, rcode: u8)
    requires small { rcode < limits.CODE_END }
    requires clear { slot.old ≡ no_answer }
    ensures { slot.new ≡ nothing rcode }
{
    slot.rcode = rcode;
}
