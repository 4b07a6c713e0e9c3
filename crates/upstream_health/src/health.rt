ghost use Rattle.std.specs.Prelude.{◌≡◌, ◌<◌, ◌≤◌, ◌+◌, ◌%◌, ◌^◌, length, replicate, IfOk};
ghost use Rattle.upstream_health.specs.Counts.{after_report, bits, is_down, next_fails};

use crate::Drawn;
use crate::state::{Health, PoolAsk, PoolTold};
use ruled_lock::{NoMemory, Object};
use std::alloc::Global;

impl Object for Health {
    type Call = PoolAsk;

    type Reply = PoolTold;

    ghost use Rattle.upstream_health.specs.Health.{IsAllowed, Steps, stays_allowed};

    ghost step = { Steps };

    ghost allowed = { IsAllowed };

    fn apply(&mut self, call: PoolAsk) -> PoolTold {
        match call {
            PoolAsk::Draw => PoolTold::Drew(self.draw()),
            PoolAsk::Report(upstream, agreed) => {
                self.report(upstream, agreed);
                PoolTold::Noted
            }
        }
    }

    ghost stays = { stays_allowed };
}

impl Health {
    /// No draw, and no failed try of so many upstreams.
    pub(crate) fn new(alloc: Global, size: u32, most: u32) -> Result<Health, NoMemory>
        requires { (1 ≤ size) × (size ≤ 15) }
        ensures { IfOk result (λ h. (h.number ≡ 0) × (h.most ≡ most)
            × (h.fails.items ≡ replicate size 0)) }
    {
        match Vec::from_elem(alloc, 0u32, size as usize) {
            Ok(fails) => Ok(Health {
                number: 0,
                most,
                fails,
            }),
            Err(_) => Err(NoMemory),
        }
    }

    fn draw(&mut self) -> Drawn
        ensures told { (result.number ≡ self.old.number)
            × (result.down ≡ bits self.old.most self.old.fails.items) }
        ensures number { self.new.number ≡ (self.old.number + 1) % 2 ^ 64 }
        ensures rest { (self.new.most ≡ self.old.most)
            × (self.new.fails.items ≡ self.old.fails.items) }
    {
        let number = self.number;
        self.number = number.wrapping_add(1);
        let down = bits(self.most, self.fails.as_slice());
        Drawn { number, down }
    }

    fn report(&mut self, upstream: u32, agreed: bool)
        ensures { (self.new.number ≡ self.old.number) × (self.new.most ≡ self.old.most)
            × (self.new.fails.items
            ≡ after_report self.old.most upstream agreed self.old.fails.items) }
    {
        let at = upstream as usize;
        if at < self.fails.len() {
            self.fails[at] = next_fails(self.most, self.fails[at], agreed);
        }
    }
}

// How many tries in a row have failed behind one more.
fn next_fails(most: u32, fails: u32, agreed: bool) -> u32
    ensures { result ≡ next_fails most agreed fails }
{
    if agreed {
        return 0;
    }
    if fails < most {
        return fails + 1;
    }
    fails
}

// A bit for each upstream that is down.
fn bits(most: u32, fails: &[u32]) -> u16
    requires { length fails.now ≤ 15 }
    ensures value { result ≡ bits most fails.now }
    ensures small { result < 2 ^ length fails.now }
{
    let Some((first, rest)) = fails.split_first() else {
        return 0;
    };
    let behind = bits(most, rest);
    let bit = is_down(most, *first) as u16;
    bit + 2 * behind
}

fn is_down(most: u32, fails: u32) -> bool
    ensures { result ≡ is_down most fails }
{
    0 < most && most <= fails
}
