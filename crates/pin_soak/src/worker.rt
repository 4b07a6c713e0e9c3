//! A worker and its pass.
ghost use Rattle.std.specs.Prelude.{◌<◌, MatchOption, IfSome};
ghost use Rattle.std.specs.Vec.{vec_len};
ghost use Rattle.pin_table.specs.{ArePasses, id_of};
ghost use Rattle.pin_soak.specs.Workers.{IsIdle, IsHolding};

use crate::chains::Chain;
use pin_table::{Pass, Pin, PinTable};

/// What a worker has seen of its chains.
#[derive(Clone, Copy, Debug)]
pub struct Seen {
    pub serial: u64,
    /// The pins of the last chain, after its turn.
    pub pins: u64,
    pub faults: u64,
}

impl Seen {
    /// A serial never falls, and a chain comes as its worker left it, first as it was made.
    fn look(&mut self, chain: &Chain, number: usize) {
        let left = if chain.serial == self.serial {
            self.pins
        } else {
            0
        };
        if chain.worker != number as u64 || chain.serial < self.serial || chain.pins != left {
            self.faults = self.faults.saturating_add(1);
        }
        self.serial = chain.serial;
        self.pins = chain.pins.wrapping_add(1);
    }
}

#[derive(Drop)]
pub struct Worker {
    pub pass: Pass<Chain>,
    pub number: usize,
    pub seen: Seen,
}

/// The worker of the last of these passes.
pub fn next_worker(table: &PinTable<Chain>, passes: &mut Vec<Pass<Chain>>) -> Option<Worker>
    requires { ArePasses (id_of table.now) 1 passes.old.items }
    ensures passes { ArePasses (id_of table.now) 1 passes.new.items }
    ensures worker { IfSome result (λ worker. IsIdle table.now worker) }
    ensures fewer { IfSome result (λ _. vec_len passes.new < vec_len passes.old) }
{
    let pass = passes.pop()?;
    Some(Worker {
        pass,
        number: passes.len(),
        seen: Seen {
            serial: 0,
            pins: 0,
            faults: 0,
        },
    })
}

pub fn take(table: &PinTable<Chain>, worker: &mut Worker) -> Option<Chain>
    requires { IsIdle table.now worker.old }
    ensures { MatchOption result (IsIdle table.now worker.new)
        (λ chain. IsHolding table.now worker.new chain) }
{
    match table.pin(&mut worker.pass) {
        Pin::Pinned { chain, .. } => Some(chain),
        Pin::Spent => None,
    }
}

pub fn give(table: &PinTable<Chain>, worker: &mut Worker, chain: Chain)
    requires { IsHolding table.now worker.old chain }
    ensures { IsIdle table.now worker.new }
{
    table.unpin(&mut worker.pass, chain);
}

fn turn(table: &PinTable<Chain>, worker: &mut Worker)
    requires { IsIdle table.now worker.old }
    ensures { IsIdle table.now worker.new }
{
    match table.pin(&mut worker.pass) {
        Pin::Pinned { chain, .. } => {
            worker.seen.look(&chain, worker.number);
            let Chain {
                serial,
                worker: number,
                pins,
            } = chain;
            let chain = Chain {
                serial,
                worker: number,
                pins: pins.wrapping_add(1),
            };
            table.unpin(&mut worker.pass, chain);
        }
        Pin::Spent => {}
    }
}

/// So many turns, each a pin and an unpin.
pub fn work(table: &PinTable<Chain>, worker: &mut Worker, turns: u64)
    requires { IsIdle table.now worker.old }
    ensures { IsIdle table.now worker.new }
{
    for _ in 0..turns {
        turn(table, worker);
    }
}
