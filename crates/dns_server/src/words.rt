//! A run by the words of the command line.
ghost use Rattle.std.specs.Prelude.{◌≡◌, map, option_map};
ghost use Rattle.command_line.specs.Command.{ServesInRange, serve_data};
ghost use Rattle.outside.specs.Causes.{HostNoneFell};
ghost use Rattle.plugin_api.specs.{Obey};
ghost use Rattle.dns_server.specs.Loading.{load_data, with_load};
ghost use Rattle.dns_server.specs.Report.{RunData, RunsCommand, run_data};
ghost use Rattle.dns_server.specs.States.{setup_of, side_runs};
ghost use Rattle.dns_server.specs.Stocking.{HasEachName, brings, stock_data};
ghost use Rattle.dns_server.specs.Telling.{IsToldRun};
ghost use Rattle.dns_server.specs.Words.{IsRunOf};

use crate::loading::run_load;
use crate::report::{LoadRun, Ran, Report};
use crate::running::{run_opened, stopped};
use crate::setup::Setup;
use crate::status::Status;
use crate::stocking::{sorted, unsorted};
use crate::telling::tell_status;
use command_line::{Command, Serve, read_command};
use corefile_words::Pair;
use dns_data::Text;
use outside::Host;
use plugin_api::{Extra, Rulebook};
use reload_watch::Source;
use std::alloc::Global;
use std::sync::Wait;
use std::thread::Threads;

/// Runs the command that the words ask for, over what the host opens, until its sides have ended
/// and no look comes any more, and tells the line of its status. The words are those behind the
/// program's own name. The extras are the program's own plugins: the first of each name judges
/// directives, and all others are spare.
pub fn run<R: Threads + Wait + Sync, H: Host, B: Rulebook + Send + Sync>(
    rt: &R,
    alloc: Global,
    words: &[Text],
    env: &[Pair],
    host: &mut H,
    extras: Vec<Box<dyn Extra + Send>>,
) -> Report<H, Box<dyn Extra + Send>>
    requires obey { Obey B.taken B.said (λ e. title e) (λ e. takes e) (λ e. ruling e) extras.items }
    ensures runs { let run : RunData = record {
      status = result.status;
      sides = side_runs H.Side.state result.sides.items;
      watch = option_map H.Watch.state result.watch;
      published = result.published;
      stock = stock_data (λ e. title e) result.stock;
      starved = result.starved;
      load = option_map load_data result.load;
    } in
        IsToldRun (brings B.taken B.said (map (λ e. title e) extras.items)) words.now env.now run
        (H.state host.old) (H.state host.new) }
    ensures extras { HasEachName (map (λ e. title e) extras.items)
        (stock_data (λ e. title e) result.stock) }
    ensures counts { HostNoneFell (H.state host.old).counts (H.state host.new).counts }
{
    run_with::<R, H, B, Box<dyn Extra + Send>>(rt, alloc, words, env, host, extras)
}

/// The same with extras of any one type.
pub fn run_with<R: Threads + Wait + Sync, H: Host, B: Rulebook + Send + Sync, E: Extra + Send>(
    rt: &R,
    alloc: Global,
    words: &[Text],
    env: &[Pair],
    host: &mut H,
    extras: Vec<E>,
) -> Report<H, E>
    requires obey { Obey B.taken B.said E.title E.takes E.ruling extras.items }
    ensures runs { let run : RunData = record {
      status = result.status;
      sides = side_runs H.Side.state result.sides.items;
      watch = option_map H.Watch.state result.watch;
      published = result.published;
      stock = stock_data E.title result.stock;
      starved = result.starved;
      load = option_map load_data result.load;
    } in
        IsToldRun (brings B.taken B.said (map E.title extras.items)) words.now env.now run
        (H.state host.old) (H.state host.new) }
    ensures extras { HasEachName (map E.title extras.items) (stock_data E.title result.stock) }
    ensures counts { HostNoneFell (H.state host.old).counts (H.state host.new).counts }
{
    let (ran, load) = run_words::<R, H, B, E>(rt, alloc, words, env, host, extras);
    let Ran {
        status,
        sides,
        watch,
        published,
        stock,
        starved,
    } = ran;
    Report {
        status: tell_status(alloc, host, status),
        sides,
        watch,
        published,
        stock,
        starved,
        load,
    }
}

// Runs the command that the words ask for, before its status is told.
fn run_words<R: Threads + Wait + Sync, H: Host, B: Rulebook + Send + Sync, E: Extra + Send>(
    rt: &R,
    alloc: Global,
    words: &[Text],
    env: &[Pair],
    host: &mut H,
    extras: Vec<E>,
) -> (Ran<H::Side, H::Watch, E>, Option<LoadRun>)
    requires obey { Obey B.taken B.said E.title E.takes E.ruling extras.items }
    ensures runs { let run = with_load (run_data H.Side.state H.Watch.state E.title result.0)
        (option_map load_data result.1) in
        IsRunOf (brings B.taken B.said (map E.title extras.items)) words.now env.now run
        (H.state host.old) (H.state host.new) }
    ensures extras { HasEachName (map E.title extras.items) (stock_data E.title result.0.stock) }
    ensures counts { HostNoneFell (H.state host.old).counts (H.state host.new).counts }
{
    match read_command(words) {
        Some(Command::Serve(serve)) => {
            let ran = run_serve::<R, H, B, E>(rt, alloc, serve, env, host, extras);
            (ran, None)
        }
        Some(Command::Load(count)) => {
            run_load::<R, H, B, E>(rt, alloc, count as u32, host, extras)
        }
        None => {
            let ran = stopped(alloc, Status::Usage, None, unsorted(alloc, extras));
            (ran, None)
        }
    }
}

// Serves as the words ask for.
fn run_serve<R: Threads + Wait + Sync, H: Host, B: Rulebook + Send + Sync, E: Extra + Send>(
    rt: &R,
    alloc: Global,
    serve: Serve<'_>,
    env: &[Pair],
    host: &mut H,
    extras: Vec<E>,
) -> Ran<H::Side, H::Watch, E>
    requires obey { Obey B.taken B.said E.title E.takes E.ruling extras.items }
    requires range { ServesInRange (serve_data serve) }
    ensures runs { RunsCommand
        (setup_of (brings B.taken B.said (map E.title extras.items)) env.now
        (serve_data serve.entry))
        (run_data H.Side.state H.Watch.state E.title result) (H.state host.old)
        (H.state host.new) }
    ensures extras { HasEachName (map E.title extras.items) (stock_data E.title result.stock) }
    ensures counts { HostNoneFell (H.state host.old).counts (H.state host.new).counts }
{
    let Ok(conf) = Text::from_str(alloc, serve.conf) else {
        return stopped(alloc, Status::NoMemory, None, unsorted(alloc, extras));
    };
    let stock = match sorted::<B, E>(alloc, extras) {
        Ok(stock) => stock,
        Err(extras) => {
            return stopped(alloc, Status::NoMemory, None, unsorted(alloc, extras));
        }
    };
    let setup = Setup {
        source: Source { conf: &conf, env },
        port: serve.port,
        workers: serve.workers,
        most: serve.most,
    };
    run_opened::<R, H, B, E>(rt, alloc, setup, host, stock)
}
