//! A load: the run of a command over memory, and its summary.
ghost use Rattle.std.specs.Prelude.{◌≡◌, ◌≢◌, ℕ, None, IfOk, IfSome, map, option_map};
ghost use Rattle.outside.specs.Causes.{HostNoneFell};
ghost use Rattle.plugin_api.specs.{Obey};
ghost use Rattle.load_maker.specs.{conf_name, host_of, load_of, load_state};
ghost use Rattle.outside_mem.specs.{side_state, watch_state};
ghost use Rattle.dns_server.specs.Loading.{LoadsBy, SumsUp, TellsLoad, TellsRun, TellsSummary};
ghost use Rattle.dns_server.specs.Loading.{alone, load_data, memory_setup, with_load};
ghost use Rattle.dns_server.specs.Report.{RunsCommand, run_data};
ghost use Rattle.dns_server.specs.Stocking.{HasEachName, SameNames, brings, stock_data};

use crate::report::{LoadRun, Ran};
use crate::running::{run_opened, stopped};
use crate::setup::Setup;
use crate::status::Status;
use crate::stocking::{sorted, unsorted};
use command_line::{DEFAULT_PORT, DEFAULT_WORKERS};
use dns_data::{NoMemory, Text, limit};
use extra_stock::Stock;
use load_maker::{Load, LoadHost, conf_name, make, sum_up, tell_lines};
use outside::{Host, Side, Watch, Wrote};
use outside_mem::{MemSide, MemWatch};
use plugin_api::{Extra, Rulebook};
use reload_watch::Source;
use std::alloc::Global;
use std::sync::Wait;
use std::thread::Threads;

/// Runs a load of so many queries, and tells its summary. The extras are the stock of its run.
pub(crate) fn run_load<
    R: Threads + Wait + Sync,
    H: Host,
    B: Rulebook + Send + Sync,
    E: Extra + Send,
>(
    rt: &R,
    alloc: Global,
    count: u32,
    host: &mut H,
    extras: Vec<E>,
) -> (Ran<H::Side, H::Watch, E>, Option<LoadRun>)
    requires obey { Obey B.taken B.said E.title E.takes E.ruling extras.items }
    ensures loads { let run = with_load (run_data H.Side.state H.Watch.state E.title result.0)
        (option_map load_data result.1) in
        LoadsBy (brings B.taken B.said (map E.title extras.items)) count run
        (H.state host.old) (H.state host.new) }
    ensures extras { HasEachName (map E.title extras.items) (stock_data E.title result.0.stock) }
    ensures counts { HostNoneFell (H.state host.old).counts (H.state host.new).counts }
{
    let stock = match sorted::<B, E>(alloc, extras) {
        Ok(stock) => stock,
        Err(extras) => {
            let ran = stopped(alloc, Status::NoMemory, None, unsorted(alloc, extras));
            return (ran, None);
        }
    };
    let Ok((load, conf, mut memory)) = loaded(alloc, count) else {
        return (stopped(alloc, Status::NoMemory, None, stock), None);
    };
    let ran = run_memory::<R, B, E>(rt, alloc, &conf, &mut memory, stock);
    tell_load(alloc, host, load, ran)
}

// The data of a load of so many queries, the name of its Corefile, and its host.
fn loaded(alloc: Global, count: u32) -> Result<(Load, Text, LoadHost), NoMemory>
    ensures load { IfOk result (λ made. made.0 ≡ load_of count) }
    ensures conf { IfOk result (λ made. made.1 ≡ conf_name) }
    ensures host { IfOk result (λ made. load_state made.2 ≡ host_of (load_of count)) }
{
    let load = make(alloc, count)?;
    let host = LoadHost::new(alloc, &load)?;
    Ok((load, conf_name(alloc)?, host))
}

// Runs a load over its host in memory, as the command that serves by its Corefile.
fn run_memory<R: Threads + Wait + Sync, B: Rulebook + Send + Sync, E: Extra + Send>(
    rt: &R,
    alloc: Global,
    conf: &Text,
    memory: &mut LoadHost,
    stock: Stock<E>,
) -> Ran<MemSide, MemWatch, E>
    requires judges { Obey B.taken B.said E.title E.takes E.ruling stock.judges.items }
    requires spare { Obey B.taken B.said E.title E.takes E.ruling stock.spare.items }
    ensures runs { RunsCommand
        (memory_setup B.taken B.said (map E.title stock.judges.items) conf.now)
        (run_data side_state watch_state E.title result) (load_state memory.old)
        (load_state memory.new) }
    ensures extras { SameNames (stock_data E.title stock) (stock_data E.title result.stock) }
{
    let setup = Setup {
        source: Source { conf, env: &[] },
        port: DEFAULT_PORT,
        workers: DEFAULT_WORKERS,
        most: limit::TURNS,
    };
    run_opened::<R, LoadHost, B, E>(rt, alloc, setup, memory, stock)
}

// What the run of a load leaves. One that published something and has ended tells its summary.
fn tell_load<H: Host, E: Extra>(
    alloc: Global,
    host: &mut H,
    load: Load,
    ran: Ran<MemSide, MemWatch, E>,
) -> (Ran<H::Side, H::Watch, E>, Option<LoadRun>)
    requires watch { ran.published ≢ 0 → option_map watch_state ran.watch ≢ None }
    ensures tells { TellsRun load (run_data side_state watch_state E.title ran)
        (run_data H.Side.state H.Watch.state E.title result.0) (option_map load_data result.1)
        (H.state host.old) (H.state host.new) }
    ensures counts { HostNoneFell (H.state host.old).counts (H.state host.new).counts }
{
    let Ran {
        status,
        sides,
        watch,
        published,
        stock,
        starved,
    } = ran;
    if published == 0 {
        return (alone(alloc, status, stock, starved), None);
    }
    let Some(watch) = watch else { unreachable!() };
    let load = LoadRun {
        load,
        sides,
        watch,
        published,
    };
    let status = told_status(alloc, host, status, &load);
    (alone(alloc, status, stock, starved), Some(load))
}

// What a run has of its own where it was a load's.
fn alone<S: Side, W: Watch, E: Extra>(
    alloc: Global,
    status: Status,
    stock: Stock<E>,
    starved: u64,
) -> Ran<S, W, E>
    ensures { run_data S.state W.state E.title result
        ≡ alone status (stock_data E.title stock) starved }
{
    Ran {
        status,
        sides: Vec::new(alloc),
        watch: None,
        published: 0,
        stock,
        starved,
    }
}

// The status of a load's run behind the telling of its summary, which is told where it has ended.
fn told_status<H: Host>(alloc: Global, host: &mut H, status: Status, load: &LoadRun) -> Status
    ensures tells { TellsLoad status (load_data load.now) result (H.state host.old)
        (H.state host.new) }
    ensures counts { HostNoneFell (H.state host.old).counts (H.state host.new).counts }
{
    match status {
        Status::Ended => tell_summary(alloc, host, load),
        _ => status,
    }
}

// Tells the summary of a load that has ended. Without all journals, or memory for the lines, none
// of them is told.
fn tell_summary<H: Host>(alloc: Global, host: &mut H, load: &LoadRun) -> Status
    ensures tells { TellsSummary (load_data load.now) result (H.state host.old) (H.state host.new) }
    ensures counts { HostNoneFell (H.state host.old).counts (H.state host.new).counts }
{
    let Some(lines) = summary(alloc, load) else {
        return Status::NoMemory;
    };
    match tell_lines(host, &lines) {
        Wrote::Ok => Status::Ended,
        Wrote::Failed => Status::TellFailed,
    }
}

// The lines that sum up a load whose sides and watch have told all.
fn summary(alloc: Global, load: &LoadRun) -> Option<Vec<Text>>
    ensures { IfSome result (λ lines. SumsUp (load_data load.now) (λ l. l ≡ lines.items)) }
{
    if load.watch.journal().is_none() {
        return None;
    }
    let [udp, tcp] = load.sides.as_slice() else {
        return None;
    };
    let (Some(udp), Some(tcp)) = (udp.side.journal(), tcp.side.journal()) else {
        return None;
    };
    sum_up(udp, tcp, load.published).lines(alloc).ok()
}
