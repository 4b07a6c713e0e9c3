//! The roles of the soak, and its end.
ghost use Rattle.std.specs.Prelude.{◌<◌, ◌≤◌, All, IfSome};
ghost use Rattle.pin_table.specs.{ArePasses, id_of};
ghost use Rattle.pin_soak.specs.Keepers.{IsKeeping};
ghost use Rattle.pin_soak.specs.Roles.{IsRole, AreHome};

use crate::chains::{Chain, chains_of};
use crate::keeper::{Keeper, keep};
use crate::ledger::Ledger;
use crate::worker::{Worker, next_worker, work};
use pin_table::{Pass, PinTable};
use std::alloc::Global;
use std::thread;
use std::thread::Threads;

const WORKERS: u64 = 4;

const TURNS: u64 = 2_500_000;

const PUBLICATIONS: u64 = 10_000;

#[derive(Drop)]
pub enum Role {
    Work(Worker),
    Keep(Keeper),
}

/// What was done in all.
#[derive(Drop)]
pub struct Done {
    pub published: u64,
    pub pins: u64,
    /// The last serials that the passes have seen, added up.
    pub seen: u64,
    pub counted: u64,
    pub home: u64,
    pub missing: usize,
    pub faults: u64,
}

fn act(table: &PinTable<Chain>, role: &mut Role, alloc: Global)
    requires { IsRole table.now role.old }
    ensures { IsRole table.now role.new }
{
    match role {
        Role::Work(worker) => work(table, worker, TURNS),
        Role::Keep(keeper) => keep(table, keeper, alloc, PUBLICATIONS),
    }
}

fn act_all<R: Threads + Sync>(rt: &R, table: &PinTable<Chain>, roles: &mut Vec<Role>, alloc: Global)
    requires { All (IsRole table.now) roles.old.items }
    ensures { All (IsRole table.now) roles.new.items }
{
    let run = |_at: usize, role: &mut Role|
        requires { IsRole table.now role.now }
        ensures { IsRole table.entry.now role.exit.now }
    {
        act(table, role, alloc);
    };
    thread::for_each_mut(rt, roles.as_mut_slice(), 5, &run);
}

/// The publisher, and the workers from the last to the first.
fn roles_of(
    alloc: Global,
    table: &PinTable<Chain>,
    keeper: Keeper,
    mut passes: Vec<Pass<Chain>>,
) -> Option<Vec<Role>>
    requires keeper { IsKeeping table.now keeper }
    requires passes { ArePasses (id_of table.now) 1 passes.items }
    ensures { IfSome result (λ roles. All (IsRole table.now) roles.items) }
{
    let mut roles = Vec::new(alloc);
    roles.push(Role::Keep(keeper)).ok()?;
    while let Some(worker) = next_worker(table, &mut passes) {
        roles.push(Role::Work(worker)).ok()?;
    }
    Some(roles)
}

/// The passes in order of worker, the publisher, and how many faults the workers met.
pub fn parts_of(
    alloc: Global,
    table: &PinTable<Chain>,
    mut roles: Vec<Role>,
) -> Option<(Vec<Pass<Chain>>, Keeper, u64)>
    requires { All (IsRole table.now) roles.items }
    ensures passes { IfSome result (λ parts. AreHome (id_of table.now) parts.0.items) }
    ensures keeper { IfSome result (λ parts. IsKeeping table.now parts.1) }
{
    let mut passes = Vec::new(alloc);
    let mut faults = 0_u64;
    while let Some(role) = roles.pop() {
        match role {
            Role::Work(worker) => {
                if worker.number != passes.len() {
                    return None;
                }
                faults = faults.saturating_add(worker.seen.faults);
                passes.push(worker.pass).ok()?;
            }
            Role::Keep(keeper) => return Some((passes, keeper, faults)),
        }
    }
    None
}

pub fn close_all(
    table: PinTable<Chain>,
    keeper: Keeper,
    passes: Vec<Pass<Chain>>,
    faults: u64,
) -> Option<Done>
    requires keeper { IsKeeping table keeper }
    requires passes { AreHome (id_of table) passes.items }
{
    let Keeper {
        publisher,
        workers,
        mut home,
        mut ledger,
        ..
    } = keeper;
    if passes.len() as u64 != workers || !home.is_empty() || home.capacity() < 128 {
        return None;
    }
    if workers > 32 {
        return None;
    }
    let totals = table.close(publisher, passes, &mut home);
    ledger.enter_all(&mut home);
    Some(Done {
        published: totals.published,
        pins: added(&totals.pins),
        seen: added(&totals.seen),
        counted: ledger.pins,
        home: ledger.home,
        missing: ledger.missing(),
        faults: faults.saturating_add(ledger.faults),
    })
}

fn added(numbers: &[u64]) -> u64 {
    let mut all = 0_u64;
    for number in numbers {
        all = all.wrapping_add(*number);
    }
    all
}

/// A new table for so many workers, with its publisher and passes.
pub fn opened(
    alloc: Global,
    workers: u64,
    serials: usize,
) -> Option<(PinTable<Chain>, Keeper, Vec<Pass<Chain>>)>
    requires { (0 < workers) × (workers ≤ 32) }
    ensures keeper { IfSome result (λ parts. IsKeeping parts.0 parts.1) }
    ensures passes { IfSome result (λ parts. ArePasses (id_of parts.0) 1 parts.2.items) }
{
    let mut first = chains_of(alloc, 0, workers).ok()?;
    let home = Vec::with_capacity(alloc, 128).ok()?;
    let seen = vec![in alloc; 0_u8; serials].ok()?;
    let (table, publisher, passes) = PinTable::new(alloc, &mut first).ok()?;
    let ledger = Ledger {
        seen,
        home: 0,
        pins: 0,
        faults: 0,
    };
    let keeper = Keeper {
        publisher,
        workers,
        home,
        ledger,
        made: 0,
    };
    Some((table, keeper, passes))
}

/// Runs the workers and the publisher at once, and closes the table.
pub fn soak<R: Threads + Sync>(rt: &R, alloc: Global) -> Option<Done> {
    let (table, keeper, passes) = opened(alloc, WORKERS, PUBLICATIONS as usize + 1)?;
    let mut roles = roles_of(alloc, &table, keeper, passes)?;
    act_all(rt, &table, &mut roles, alloc);
    let (passes, keeper, faults) = parts_of(alloc, &table, roles)?;
    close_all(table, keeper, passes, faults)
}
