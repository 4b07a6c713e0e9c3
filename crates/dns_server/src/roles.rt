//! The roles of a run: a worker for each side, and the watcher. Each has a thread of its own where
//! one can be made.
ghost use Rattle.dns_data.specs.declared.limit.TheConstants as limits;
ghost use Rattle.std.specs.Prelude.{◌≡◌, ◌≤◌, ◌<◌, ◌+◌, ◌++◌, ℕ, [], length, slice_index_or};
ghost use Rattle.std.specs.List.{All, AllZip};
ghost use Rattle.std.specs.Vec.{vec_capacity};
ghost use Rattle.pin_table.specs.{ArePasses, id_of};
ghost use Rattle.reload_watch.specs.{source_data};
ghost use Rattle.dns_server.specs.Each.{Each3};
ghost use Rattle.dns_server.specs.Roles.{AreStarting, AreWorking, Becomes, IsPart, IsReady};
ghost use Rattle.dns_server.specs.Roles.{task_of};

use crate::report::Done;
use chain_build::Chain;
use outside::{Side, Watch};
use pin_table::{Pass, PinTable};
use plugin_api::{Extra, Rulebook};
use query_worker::{Worker, work};
use reload_watch::{Source, Watcher, watch};
use run_meaning::WorkEnd;
use std::alloc::Global;
use std::sync::Wait;
use std::thread;
use std::thread::Threads;

/// What one thread does: a worker, with how it ended, or the watcher.
#[derive(Drop)]
pub(crate) enum Role<S, W, B: Rulebook, E: Extra> {
    Work(Worker<S, B, E>, Option<WorkEnd>),
    Watch(Watcher<W, B, E>),
}

/// What all roles share.
#[derive(Drop)]
pub(crate) struct Shared<'a, B: Rulebook, E: Extra> {
    pub table: &'a PinTable<Chain<B, E>>,
    pub source: Source<'a>,
    pub most: u64,
}

// What a role does until it has ended.
fn act<R: Wait, S: Side, W: Watch, B: Rulebook, E: Extra>(
    rt: &R,
    alloc: Global,
    shared: &Shared<'_, B, E>,
    role: &mut Role<S, W, B, E>,
)
    requires ready { IsReady S.state (task_of shared.now) role.old }
    ensures { Becomes S.state W.state (task_of shared.now) role.old role.new }
{
    match role {
        Role::Work(worker, end) => {
            *end = Some(work(rt, alloc, worker, shared.table, shared.most));
        }
        Role::Watch(watcher) => {
            let _ = watch(rt, alloc, watcher, shared.table, shared.source);
        }
    }
}

/// All roles act, the workers first and the watcher last, and all have ended behind it.
pub(crate) fn act_all<
    R: Threads + Wait + Sync,
    S: Side + Send + Drop,
    W: Watch + Send + Drop,
    B: Rulebook + Send + Sync,
    E: Extra + Send,
>(rt: &R, alloc: Global, shared: &Shared<'_, B, E>, roles: &mut Vec<Role<S, W, B, E>>)
    requires ready { All (IsReady S.state (task_of shared.now)) roles.old.items }
    ensures { AllZip (Becomes S.state W.state (task_of shared.now)) roles.old.items
        roles.new.items }
{
    act_each(rt, alloc, shared, roles.as_mut_slice());
}

fn act_each<
    R: Threads + Wait + Sync,
    S: Side + Send + Drop,
    W: Watch + Send + Drop,
    B: Rulebook + Send + Sync,
    E: Extra + Send,
>(rt: &R, alloc: Global, shared: &Shared<'_, B, E>, roles: &mut [Role<S, W, B, E>])
    requires ready { All (IsReady S.state (task_of shared.now)) roles.old }
    ensures { (length roles.new ≡ length roles.old)
        × ((k : ℕ) (d : _) → k < length roles.old
        → Becomes S.state W.state (task_of shared.now) (slice_index_or roles.old k d)
        (slice_index_or roles.new k d)) }
{
    let threads = roles.len();
    if threads == 0 {
        return;
    }
    let run = |_at: usize, role: &mut Role<S, W, B, E>|
        requires { IsReady S.state (task_of shared.now) role.now }
        ensures { Becomes S.state W.state (task_of shared.entry.now) role.entry.now
            role.exit.now }
    {
        act(rt, alloc, shared, role);
    };
    thread::for_each_mut(rt, roles, threads, &run);
}

/// A worker for each side, in their order, with the passes from the first on.
pub(crate) fn push_workers<S: Side + Drop, W, B: Rulebook, E: Extra>(
    alloc: Global,
    table: &PinTable<Chain<B, E>>,
    sides: Vec<S>,
    passes: &mut Vec<Pass<Chain<B, E>>>,
    roles: &mut Vec<Role<S, W, B, E>>,
)
    requires passes { ArePasses (id_of table.now) 1 passes.old.items }
    requires each { length passes.old.items ≡ length sides.items }
    requires none { roles.old.items ≡ [] }
    requires room { length sides.items ≤ vec_capacity roles.old }
    ensures start { AreStarting table.now 0 sides.items roles.new.items }
    ensures passes { passes.new.items ≡ [] }
    ensures room { (vec_capacity roles.new ≡ vec_capacity roles.old)
        × (vec_capacity passes.new ≡ vec_capacity passes.old) }
{
    for side in sides {
        let pass = passes.remove(0);
        let worker = Worker::new(alloc, side, pass);
        roles.push_reserved(Role::Work(worker, None));
    }
}

/// What workers that have ended leave, and their passes.
pub(crate) fn part<S: Drop, W: Drop, B: Rulebook, E: Extra>(
    roles: Vec<Role<S, W, B, E>>,
    dones: &mut Vec<Done<S>>,
    passes: &mut Vec<Pass<Chain<B, E>>>,
)
    requires workers { AreWorking roles.items }
    requires none { (dones.old.items ≡ []) × (passes.old.items ≡ []) }
    requires room { (length roles.items ≤ vec_capacity dones.old)
        × (length roles.items ≤ vec_capacity passes.old) }
    ensures { Each3 IsPart roles.items dones.new.items passes.new.items }
{
    for role in roles {
        let Role::Work(worker, end) = role else {
            unreachable!()
        };
        let Some(end) = end else { unreachable!() };
        let Worker {
            side,
            pass,
            tally,
            room: _,
        } = worker;
        passes.push_reserved(pass);
        let done = Done {
            side,
            end,
            pins: tally.pins,
            seen: tally.seen,
            starved: tally.starved,
        };
        dones.push_reserved(done);
    }
}
