//! The program: `dnschain serve --conf FILE [--port N] [--workers N] [--queries N]`, over the
//! sockets, files and streams of the system, and `dnschain load N`, which needs of them the stream
//! of its lines alone. It ends with a number that says how the run ended: README.md.
#![tactic(auto)]

ghost use Rattle.std.specs.Prelude.{◌≡◌};
ghost use Rattle.dnschain.specs.Exit.{exit_number};
ghost use Rattle.plugin_api.specs.{Obey};
ghost use Rattle.sinkhole_plugin.specs.Sinkhole.{sink_said, takes_sink};

use corefile_words::Pair;
use dns_data::Text;
use dns_server::{Status, run, tell_status};
use edge_sockets::open_standard;
use outside::Host;
use plugin_api::Extra;
use sinkhole_plugin::{Sinkhole, SinkholeBook};
use std::alloc::Global;
use std::process::ExitCode;
use std::sync::Wait;
use std::thread::Threads;
use system_host::{SystemHost, Unheard, environment, words};

fn main(rt: HostRuntime) -> ExitCode {
    open_standard();
    let alloc = rt.alloc();
    let words = words(&rt, alloc);
    let env = environment(&rt, alloc);
    let mut host = SystemHost::new(rt, alloc);
    let status = match (words, env) {
        (Ok(words), Ok(env)) => { serve(&rt, alloc, words.as_slice(), env.as_slice(), &mut host) }
        (Err(why), _) | (_, Err(why)) => tell_status(alloc, &mut host, unheard(why)),
    };
    ExitCode::from(number_of(&status))
}

// How many sinkholes a run has: one judges directives, and 512 serve, which is 16 for each of 32
// workers.
const SINKHOLES: u32 = 513;

// Runs the words with the program's own plugins.
fn serve<R: Threads + Wait + Sync, H: Host>(
    rt: &R,
    alloc: Global,
    words: &[Text],
    env: &[Pair],
    host: &mut H,
) -> Status {
    let mut extras: Vec<Box<dyn Extra + Send>> = Vec::new(alloc);
    for _ in 0..SINKHOLES {
        let Ok(extra) = Box::new(alloc, Sinkhole::new()) else {
            return tell_status(alloc, host, Status::NoMemory);
        };
        let boxed: Box<dyn Extra + Send> = extra;
        let Ok(()) = extras.push(boxed) else {
            return tell_status(alloc, host, Status::NoMemory);
        };
    }
    run_with_extras(rt, alloc, words, env, host, extras)
}

// Runs the words with these extras.
fn run_with_extras<R: Threads + Wait + Sync, H: Host>(
    rt: &R,
    alloc: Global,
    words: &[Text],
    env: &[Pair],
    host: &mut H,
    extras: Vec<Box<dyn Extra + Send>>,
) -> Status
    requires obey { Obey (λ name. takes_sink) (λ name. sink_said) (λ e. title e) (λ e. takes e)
        (λ e. ruling e) extras.items }
{
    run::<R, H, SinkholeBook>(rt, alloc, words, env, host, extras).status
}

// The status of a program whose words or environment weren't read. Words that aren't UTF-8 are no
// command.
fn unheard(why: Unheard) -> Status {
    match why {
        Unheard::NotText => Status::Usage,
        Unheard::NoMemory => Status::NoMemory,
    }
}

// The number with which the program ends.
fn number_of(status: &Status) -> u8
    ensures { result ≡ exit_number status.now }
{
    match status {
        Status::Ended => 0,
        Status::Refused(_) => 1,
        Status::Usage => 2,
        Status::ReadFailed(_) | Status::OpenFailed | Status::TellFailed => 3,
        Status::NoMemory => 4,
        Status::StockShort { .. } => 5,
        Status::WorkerFailed => 6,
    }
}
