//! The history of a part that workers share, as far as later calls depend on it.
ghost use Rattle.std.specs.Prelude.{IfOk, List, []};
ghost use Rattle.outside.specs.declared.mark.Mark.{Mark};
ghost use Rattle.audit_run.specs.Histories.{Shows, TakesMark, TakesOfPool, TakesOfShard};
ghost use Rattle.audit_run.specs.PoolHistories.{ShowsPool};
ghost use Rattle.audit_run.specs.Rules.{all_events};
ghost use Rattle.audit_run.specs.ShardHistories.{StoresShow};

use crate::PartRule;
use crate::pool_history::PoolHistory;
use crate::shard_history::ShardHistory;
use dns_data::NoMemory;
use outside::{InnerMark, Mark};
use std::alloc::Global;

#[derive(Drop)]
pub(crate) enum History<'a> {
    Shard(ShardHistory<'a>),
    Pool(PoolHistory),
}

impl<'a> History<'a> {
    pub(crate) fn new(alloc: Global, rule: PartRule) -> Result<History<'a>, NoMemory>
        ensures { IfOk result (λ h. Shows rule [] h) }
    {
        Ok(match rule {
            PartRule::Shard(success, denial) => {
                History::Shard(ShardHistory::new(alloc, success, denial)?)
            }
            PartRule::Pool(pool) => History::Pool(PoolHistory::new(alloc, pool)?),
        })
    }

    /// Takes a mark, where it may stand behind those before it.
    pub(crate) fn take(&mut self, alloc: Global, mark: &'a Mark) -> Result<bool, NoMemory>
        ensures { IfOk result (λ taken. (rule : _) (marks : List Mark) → Shows rule marks self.old
            → TakesMark rule marks mark.now taken self.new) }
    {
        match self {
            History::Shard(shard) => {
                let taken = take_of_shard(alloc, shard, mark)?;
                Ok(taken)
            }
            History::Pool(pool) => Ok(take_of_pool(pool, mark)),
        }
    }
}

fn take_of_shard<'a>(
    alloc: Global,
    shard: &mut ShardHistory<'a>,
    mark: &'a Mark,
) -> Result<bool, NoMemory>
    ensures { IfOk result (λ taken. (capacities : _) (marks : List Mark)
        → StoresShow (λ e. e.now) capacities marks shard.old.success shard.old.denial
        → TakesOfShard capacities marks mark.now taken shard.new) }
{
    match mark {
        Mark::Looked(key, now, told) => Ok(shard.look(key, *now, told)),
        Mark::Put(key, entry, kept) => {
            if !*kept {
                return Ok(true);
            }
            shard.put(alloc, key, entry)?;
            Ok(true)
        }
        _ => Ok(true),
    }
}

fn take_of_pool(pool: &mut PoolHistory, mark: &Mark) -> bool
    ensures { (rule : _) (marks : List Mark) → ShowsPool rule (all_events marks) pool.old
        → TakesOfPool rule marks mark.now result pool.new }
{
    let Mark::Inner(inner) = mark else {
        return true;
    };
    match inner {
        InnerMark::Drawn(number, down) => pool.draw(*number, *down),
        InnerMark::Reported(upstream, agreed) => {
            pool.report(*upstream, *agreed);
            true
        }
        _ => true,
    }
}
