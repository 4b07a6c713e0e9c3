//! A run by a command, until its workers have ended.
ghost use Rattle.dns_data.specs.declared.limit.TheConstants as limits;
ghost use Rattle.std.specs.Prelude.{◌≡◌, ◌≢◌, ◌≤◌, ◌<◌, [], map, option_map};
ghost use Rattle.dns_server.specs.Opening.{side_count};
ghost use Rattle.chain_build.specs.{ArePlans, ground_of};
ghost use Rattle.corefile_bundle.specs.{IsGathered};
ghost use Rattle.chain_meaning.specs.{ground_at};
ghost use Rattle.plugin_api.specs.{Obey};
ghost use Rattle.command_line.specs.declared.bounds.TheConstants as defaults;
ghost use Rattle.outside.specs.Causes.{HostNoneFell};
ghost use Rattle.outside.specs.Hosts.{IsFreshWatch};
ghost use Rattle.dns_server.specs.Report.{IsFirstStatus, RunsBehind, RunsCommand, RunsPlans};
ghost use Rattle.dns_server.specs.Report.{build_status, open_status, run_data, stopped_run};
ghost use Rattle.dns_server.specs.Stocking.{SameNames, stock_data};
ghost use Rattle.dns_server.specs.States.{run_setup};

use crate::ending::end_status;
use crate::finishing::{Opened, finish};
use crate::report::Ran;
use crate::rooms::Rooms;
use crate::setup::Setup;
use crate::sides::{open_places, refused_sides};
use crate::status::Status;
use chain_build::{BuildFault, Plans, take_back};
use extra_stock::Stock;
use lent_caches::Caches;
use outside::{Host, OpenFault, Side, Watch};
use pin_table::PinTable;
use plugin_api::{Extra, Rulebook};
use reload_watch::{ReadFault, Watcher, read_first};
use seeded_hash::Seed;
use std::alloc::Global;
use std::sync::Wait;
use std::thread::Threads;

// The watch of a run, its stock, and with which its caches hash, before anything is served.
#[derive(Drop)]
struct Begun<W, E> {
    watch: W,
    stock: Stock<E>,
    seed: Seed,
}

/// Opens the watch of a host, and runs a command over it.
pub(crate) fn run_opened<
    R: Threads + Wait + Sync,
    H: Host,
    B: Rulebook + Send + Sync,
    E: Extra + Send,
>(
    rt: &R,
    alloc: Global,
    setup: Setup<'_>,
    host: &mut H,
    stock: Stock<E>,
) -> Ran<H::Side, H::Watch, E>
    requires workers { (0 < setup.workers) × (setup.workers ≤ defaults.WORKERS) }
    requires some { 0 < setup.most }
    requires most { setup.most ≤ limits.TURNS }
    requires judges { Obey B.taken B.said E.title E.takes E.ruling stock.judges.items }
    requires spare { Obey B.taken B.said E.title E.takes E.ruling stock.spare.items }
    ensures runs { RunsCommand
        (run_setup setup.entry B.taken B.said (map E.title stock.judges.items))
        (run_data H.Side.state H.Watch.state E.title result) (H.state host.old)
        (H.state host.new) }
    ensures extras { SameNames (stock_data E.title stock) (stock_data E.title result.stock) }
    ensures counts { HostNoneFell (H.state host.old).counts (H.state host.new).counts }
{
    match host.open_watch() {
        Ok(watch) => run_command::<R, H, B, E>(rt, alloc, setup, host, watch, stock),
        Err(OpenFault::Failed) => stopped(alloc, Status::OpenFailed, None, stock),
        Err(OpenFault::NoMemory) => stopped(alloc, Status::NoMemory, None, stock),
    }
}

// Runs a command over a watch that was just opened.
fn run_command<R: Threads + Wait + Sync, H: Host, B: Rulebook + Send + Sync, E: Extra + Send>(
    rt: &R,
    alloc: Global,
    setup: Setup<'_>,
    host: &mut H,
    mut watch: H::Watch,
    stock: Stock<E>,
) -> Ran<H::Side, H::Watch, E>
    requires fresh { IsFreshWatch (H.Watch.state watch) }
    requires workers { (0 < setup.workers) × (setup.workers ≤ defaults.WORKERS) }
    requires some { 0 < setup.most }
    requires most { setup.most ≤ limits.TURNS }
    requires judges { Obey B.taken B.said E.title E.takes E.ruling stock.judges.items }
    requires spare { Obey B.taken B.said E.title E.takes E.ruling stock.spare.items }
    ensures runs { RunsBehind
        (run_setup setup.entry B.taken B.said (map E.title stock.judges.items))
        (run_data H.Side.state H.Watch.state E.title result) (H.Watch.state watch)
        (H.state host.old) (H.state host.new) }
    ensures extras { SameNames (stock_data E.title stock) (stock_data E.title result.stock) }
    ensures counts { HostNoneFell (H.state host.old).counts (H.state host.new).counts }
{
    let read: Result<Plans<B>, ReadFault> = read_first(
        alloc,
        &mut watch,
        setup.source,
        setup.port,
        stock.judges.as_slice(),
    );
    let plans = match read {
        Ok(plans) => plans,
        Err(fault) => return stopped(alloc, status_of(fault), Some(watch), stock),
    };
    if plans.ports.len() == 0 {
        return stopped(alloc, Status::Ended, Some(watch), stock);
    }
    if let Some(why) = refused_sides(plans.ports.as_slice(), setup.workers) {
        return stopped(alloc, Status::Refused(why), Some(watch), stock);
    }
    let seed = seed_of(host);
    run_plans(rt, alloc, setup, host, plans, Begun { watch, stock, seed })
}

// Two random words of a host, which clients can't know.
fn seed_of<H: Host>(host: &mut H) -> Seed
    ensures { H.state host.new ≡ H.state host.old }
{
    Seed::new(host.word(), host.word())
}

// Runs by what the first bundle serves by: builds its chains, opens its sides, publishes it, and
// serves until all have ended. Where a side can't be opened, the extras go back into the stock.
fn run_plans<R: Threads + Wait + Sync, H: Host, B: Rulebook + Send + Sync, E: Extra + Send>(
    rt: &R,
    alloc: Global,
    setup: Setup<'_>,
    host: &mut H,
    plans: Plans<B>,
    begun: Begun<H::Watch, E>,
) -> Ran<H::Side, H::Watch, E>
    requires are { ArePlans B.taken B.said plans }
    requires gathered { IsGathered plans.bundle }
    requires basis { ground_of plans ≡ ground_at setup.port (map E.title begun.stock.judges.items) }
    requires workers { (0 < setup.workers) × (setup.workers ≤ defaults.WORKERS) }
    requires ports { plans.ports ≢ [] }
    requires few { side_count setup.workers plans.ports ≤ limits.WORKERS }
    requires some { 0 < setup.most }
    requires most { setup.most ≤ limits.TURNS }
    requires judges { Obey B.taken B.said E.title E.takes E.ruling begun.stock.judges.items }
    requires spare { Obey B.taken B.said E.title E.takes E.ruling begun.stock.spare.items }
    ensures runs { RunsPlans
        (run_setup setup.entry B.taken B.said (map E.title begun.stock.judges.items)) plans
        (run_data H.Side.state H.Watch.state E.title result) (H.Watch.state begun.watch)
        (H.state host.old) (H.state host.new) }
    ensures extras { SameNames (stock_data E.title begun.stock) (stock_data E.title result.stock) }
    ensures counts { HostNoneFell (H.state host.old).counts (H.state host.new).counts }
{
    let Begun {
        mut watch,
        mut stock,
        seed,
    } = begun;
    let mut caches = Caches::new(alloc);
    let rooms = match Rooms::new(alloc, plans, setup.workers, &mut stock, &mut caches, seed) {
        Ok(rooms) => rooms,
        Err(fault) => return stopped(alloc, status_of_build(fault), Some(watch), stock),
    };
    let Rooms {
        plans,
        places,
        mut chains,
        mut sides,
        roles,
        dones,
        home,
    } = rooms;
    if let Err(fault) = open_places(host, &places, &mut sides) {
        take_back(&mut chains, &mut stock, &mut caches);
        return stopped(alloc, status_of_open(fault), Some(watch), stock);
    }
    let workers = chains.len() as u64;
    let Ok((table, publisher, passes)) = PinTable::new(alloc, &mut chains) else {
        take_back(&mut chains, &mut stock, &mut caches);
        return stopped(alloc, Status::NoMemory, Some(watch), stock);
    };
    watch.saw_published(0);
    let watcher = Watcher {
        watch,
        publisher,
        workers,
        current: plans,
        stock,
        home,
        caches,
        seed,
        starved: 0,
    };
    let served = Opened {
        table,
        passes,
        sides,
        watcher,
        roles,
        dones,
    };
    let finished = finish(rt, alloc, setup, served);
    Ran {
        status: end_status(finished.dones.as_slice(), finished.starved),
        sides: finished.dones,
        watch: Some(finished.watch),
        published: finished.published,
        stock: finished.stock,
        starved: finished.starved,
    }
}

/// A run that ended before anything was served.
pub(crate) fn stopped<S: Side, W: Watch, E: Extra>(
    alloc: Global,
    status: Status,
    watch: Option<W>,
    stock: Stock<E>,
) -> Ran<S, W, E>
    ensures { run_data S.state W.state E.title result
        ≡ stopped_run status (option_map W.state watch) (stock_data E.title stock) }
{
    Ran {
        status,
        sides: Vec::new(alloc),
        watch,
        published: 0,
        stock,
        starved: 0,
    }
}

// The status of a run without a first configuration.
fn status_of(fault: ReadFault) -> Status
    ensures { IsFirstStatus fault result }
{
    match fault {
        ReadFault::Refused(refusal) => Status::Refused(refusal),
        ReadFault::ReadFailed(name) => Status::ReadFailed(name),
        ReadFault::NoMemory => Status::NoMemory,
    }
}

// That of a run without chains for its first configuration.
fn status_of_build(fault: BuildFault) -> Status
    ensures { result ≡ build_status fault }
{
    match fault {
        BuildFault::StockShort { name, asked, had } => Status::StockShort { name, asked, had },
        BuildFault::NoMemory => Status::NoMemory,
    }
}

// That of a run whose sides could not all be opened.
fn status_of_open(fault: OpenFault) -> Status
    ensures { result ≡ open_status fault }
{
    match fault {
        OpenFault::Failed => Status::OpenFailed,
        OpenFault::NoMemory => Status::NoMemory,
    }
}
