//! The history of a pool, as far as later calls depend on it.
ghost use Rattle.std.specs.Prelude.{◌≡◌, ◌==◌, ◌&&◌, ◌↔◌, IfOk, IsTrue, [], ◌∷◌, ◌++◌, List};
ghost use Rattle.upstream_health.specs.Counts.{bits, is_down, next_fails};
ghost use Rattle.upstream_health.specs.Pools.{Event, IsDraw, drew_event, noted_event};
ghost use Rattle.audit_run.specs.PoolHistories.{ShowsPool, TakesDraw};

use crate::PoolRule;
use dns_data::NoMemory;
use std::alloc::Global;

/// How many draws there were, modulo 2^64, and how many tries of each upstream failed in a row, as
/// far as these are counted.
#[derive(Debug, Drop)]
pub(crate) struct PoolHistory {
    rule: PoolRule,
    draws: u64,
    fails: Vec<u32>,
}

impl PoolHistory {
    pub(crate) fn new(alloc: Global, rule: PoolRule) -> Result<PoolHistory, NoMemory>
        ensures { IfOk result (λ h. ShowsPool rule [] h) }
    {
        Ok(PoolHistory {
            rule,
            draws: 0,
            fails: Vec::from_elem(alloc, 0u32, rule.size as usize)?,
        })
    }

    /// Takes a draw, where it tells what one does.
    pub(crate) fn draw(&mut self, number: u64, down: u16) -> bool
        ensures { (rule : _) (events : List Event) → ShowsPool rule events self.old
            → TakesDraw rule events number down result self.new }
    {
        if !self.is_next(number, down) {
            return false;
        }
        self.draws = self.draws.wrapping_add(1);
        true
    }

    /// Takes a report of a try that has ended.
    pub(crate) fn report(&mut self, upstream: u32, agreed: bool)
        ensures { (rule : _) (events : List Event) → ShowsPool rule events self.old
            → ShowsPool rule (events ++ noted_event upstream agreed ∷ []) self.new }
    {
        let at = upstream as usize;
        if at < self.fails.len() {
            self.fails[at] = next_fails(self.rule.most, self.fails[at], agreed);
        }
    }

    fn is_next(&self, number: u64, down: u16) -> bool
        ensures { result ≡ (number == self.now.draws
            && down == bits self.now.rule.most self.now.fails.items) }
    {
        number == self.draws && self.tells(down)
    }

    // Whether just the bits of the upstreams that are left out are set.
    fn tells(&self, down: u16) -> bool
        ensures { result ≡ (down == bits self.now.rule.most self.now.fails.items) }
    {
        let mut rest = down;
        for fails in &self.fails {
            if (rest % 2 == 1) != is_down(self.rule.most, *fails) {
                return false;
            }
            rest /= 2;
        }
        rest == 0
    }
}

// How many tries in a row have failed behind one more.
fn next_fails(most: u32, fails: u32, agreed: bool) -> u32
    ensures { result ≡ next_fails most agreed fails }
{
    if agreed {
        return 0;
    }
    if fails < most {
        return fails + 1;
    }
    fails
}

fn is_down(most: u32, fails: u32) -> bool
    ensures { result ≡ is_down most fails }
{
    0 < most && most <= fails
}
