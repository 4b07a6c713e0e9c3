//! How a chain ends that may have a cache.
ghost use Rattle.std.specs.Arc.{arc_value};
ghost use Rattle.std.specs.Prelude.{◌≡◌, true, Some, IfOk, is_some};
ghost use Rattle.dns_data.specs.Message.{AnswerData};
ghost use Rattle.cache_rules.specs.{aged};
ghost use Rattle.plugin_api.specs.{PlanData};
ghost use Rattle.chain_build.specs.Giving.{decision_in, gave, hit_answer};
ghost use Rattle.chain_build.specs.Walking.{decided, decision_of};

use crate::block::BlockChain;
use crate::ended::Ended;
use cache_rules::{CachePlan, aged};
use dns_data::{NoMemory, Slot};
use outside::Entry;
use std::alloc::Global;
use std::sync::Arc;

/// How a chain ended that may have a cache, of which a hit lends an entry.
#[derive(Drop)]
pub enum Given<'a> {
    Ended(Ended<'a>),
    /// A reply, whose records stand in the entry, and not in the slot.
    Hit(Hit<'a>),
}

/// An entry that a cache with this plan found, and when, in milliseconds.
#[derive(Drop)]
pub struct Hit<'a> {
    pub plan: &'a CachePlan,
    pub kept: Arc<Entry>,
    pub moment: u64,
}

/// What is given by a chain that ended so, without a hit.
#[inline(always)]
pub fn as_given(ended: Result<Ended<'_>, NoMemory>) -> Result<Given<'_>, NoMemory>
    ensures { (answer : AnswerData) → gave result answer ≡ decided ended.entry answer }
{
    match ended {
        Ok(ended) => Ok(Given::Ended(ended)),
        Err(NoMemory) => Err(NoMemory),
    }
}

/// The hit of an entry that the cache of a chain found.
#[inline(always)]
pub fn hit_of(chain: &BlockChain, kept: Arc<Entry>, moment: u64) -> Hit<'_>
    requires { is_some chain.now.cache ≡ true }
    ensures { (plan : PlanData) → chain.now.cache ≡ Some plan
        → hit_answer result ≡ aged plan (arc_value kept) moment }
{
    let Some(plan) = &chain.cache else {
        unreachable!()
    };
    Hit { plan, kept, moment }
}

/// How a chain ended that gave so, with the answer of a hit copied into the slot, for who changes
/// it.
pub fn own<'a>(alloc: Global, given: Given<'a>, slot: &mut Slot) -> Result<Ended<'a>, NoMemory>
    ensures { IfOk result (λ ended. decision_of ended slot.new
        ≡ decision_in given.entry slot.old) }
{
    match given {
        Given::Ended(ended) => Ok(ended),
        Given::Hit(hit) => {
            aged(alloc, hit.plan, &hit.kept, hit.moment, slot)?;
            Ok(Ended::Reply)
        }
    }
}
