//! A run from its first publication to the end of its workers and its watcher.
ghost use Rattle.dns_data.specs.declared.limit.TheConstants as limits;
ghost use Rattle.std.specs.Prelude.{◌≡◌, ◌≤◌, ◌<◌, ◌+◌, ℕ, List, [], length, map};
ghost use Rattle.std.specs.Arc.{arc_value};
ghost use Rattle.chain_meaning.specs.{ground_at};
ghost use Rattle.std.specs.Vec.{vec_capacity};
ghost use Rattle.dns_server.specs.Report.{Finishes};
ghost use Rattle.dns_server.specs.Roles.{IsOpened, left_by};
ghost use Rattle.dns_server.specs.States.{run_setup};
ghost use Rattle.dns_server.specs.Stocking.{data_weighs, stock_data};
ghost use Rattle.extra_stock.specs.{names_weigh};
ghost use Rattle.reload_watch.specs.{all_weigh};

use crate::history::one_history;
use crate::report::Done;
use crate::roles::{Role, Shared, act_all, part, push_workers};
use crate::setup::Setup;
use all_home::all_home;
use chain_build::{Chain, take_back};
use extra_stock::Stock;
use outside::{Side, Watch};
use pin_table::{Pass, PinTable};
use plugin_api::{Extra, Rulebook};
use reload_watch::Watcher;
use std::alloc::Global;
use std::sync::Wait;
use std::thread::Threads;

/// What a run has once its sides are open and the first generation is published, with room for the
/// roles and for what they leave.
#[derive(Drop)]
pub(crate) struct Opened<S, W, B: Rulebook, E: Extra> {
    pub table: PinTable<Chain<B, E>>,
    pub passes: Vec<Pass<Chain<B, E>>>,
    pub sides: Vec<S>,
    pub watcher: Watcher<W, B, E>,
    pub roles: Vec<Role<S, W, B, E>>,
    pub dones: Vec<Done<S>>,
}

/// What a run leaves once all have ended.
#[derive(Drop)]
pub(crate) struct Finished<S, W, E> {
    pub dones: Vec<Done<S>>,
    pub watch: W,
    pub published: u64,
    pub stock: Stock<E>,
    pub starved: u64,
}

/// Serves until each side has ended and no look comes any more.
pub(crate) fn finish<
    R: Threads + Wait + Sync,
    S: Side + Send + Drop,
    W: Watch + Send + Drop,
    B: Rulebook + Send + Sync,
    E: Extra + Send,
>(rt: &R, alloc: Global, setup: Setup<'_>, opened: Opened<S, W, B, E>) -> Finished<S, W, E>
    requires opened { IsOpened S.state
        (ground_at setup.port (map E.title opened.watcher.stock.judges.items)) opened }
    requires some { 0 < setup.most }
    requires most { setup.most ≤ limits.TURNS }
    ensures finishes { Finishes
        (run_setup setup.entry B.taken B.said (map E.title opened.watcher.stock.judges.items))
        (arc_value opened.watcher.current).bundle (map S.state opened.sides.items)
        (W.state opened.watcher.watch) (left_by S.state W.state E.title result) }
    ensures extras { (w : List ℕ → ℕ) → data_weighs w (stock_data E.title result.stock)
        ≡ names_weigh E.title w opened.watcher.stock.judges.items + all_weigh w opened.watcher }
{
    let Opened {
        table,
        mut passes,
        sides,
        watcher,
        mut roles,
        mut dones,
    } = opened;
    push_workers(alloc, &table, sides, &mut passes, &mut roles);
    roles.push_reserved(Role::Watch(watcher));
    let shared = Shared {
        table: &table,
        source: setup.source,
        most: setup.most,
    };
    act_all(rt, alloc, &shared, &mut roles);
    let watcher = match roles.pop() {
        Some(Role::Watch(watcher)) => watcher,
        Some(Role::Work(..)) => unreachable!(),
        None => unreachable!(),
    };
    part(roles, &mut dones, &mut passes);
    let Watcher {
        watch,
        publisher,
        mut stock,
        mut caches,
        mut home,
        starved,
        ..
    } = watcher;
    let totals = table.close(publisher, passes, &mut home);
    take_back(&mut home, &mut stock, &mut caches);
    all_home::<Chain<B, E>>();
    one_history();
    Finished {
        dones,
        watch,
        published: totals.published,
        stock,
        starved,
    }
}
