ghost use Rattle.std.specs.Prelude.{None};

use crate::endpoint::{Apart, Endpoint, Unopened};
use crate::random_word::word_of;
use crate::threads::can_run;
use crate::watch::FileWatch;
use dns_data::Transport;
use edge_net::{Crew, End, NetSide, count};
use edge_sockets::{EdgeLine, line_text, note_line, tell_line};
use outside::{Host, OpenFault, Wrote};
use std::alloc::{AllocError, Global};
use std::net::Net;
use std::random::RandomSource;
use std::rt::Files;
use std::sync::{Arc, Wait};
use std::thread::Threads;
use std::time::Clock;

/// The host over the system: sockets at every address, files, standard output and standard error.
/// It tells no lines, no opened sides and no supply, and counts its failing calls.
#[derive(Drop)]
pub struct SystemHost<
    R: Threads + Wait + Net + Files + Clock + RandomSource + Print + Eprint + Copy + Send + Drop,
> {
    rt: R,
    alloc: Global,
    // The sides that have not left yet, which the watch asks. It is made with the watch.
    crew: Option<Arc<Crew, Global>>,
    // The port that was opened last, for the sides of its further workers.
    last: Option<Endpoint>,
    // How many sides were opened. Each has a thread of its own, beside the one of the watch.
    sides: usize,
    open_faults: u64,
    tell_faults: u64,
}

impl<
    R: Threads + Wait + Net + Files + Clock + RandomSource + Print + Eprint + Copy + Send + Drop,
> SystemHost<R> {
    pub fn new(rt: R, alloc: Global) -> SystemHost<R> {
        SystemHost {
            rt,
            alloc,
            crew: None,
            last: None,
            sides: 0,
            open_faults: 0,
            tell_faults: 0,
        }
    }
}

impl<
    R: Threads + Wait + Net + Files + Clock + RandomSource + Print + Eprint + Copy + Send + Drop,
> Host for SystemHost<R> {
    type Side = NetSide<R>;

    type Watch = FileWatch<R>;

    ghost state = { λ h. record {
      told = None;
      counts = record { opens = h.open_faults; tells = h.tell_faults };
      supply = None;
    } };

    fn open_watch(&mut self) -> Result<FileWatch<R>, OpenFault> {
        let Ok(crew) = Arc::new(self.alloc, Crew::new(self.alloc)) else {
            return Err(OpenFault::NoMemory);
        };
        let Ok(asked) = Arc::try_clone(&crew) else {
            return Err(OpenFault::NoMemory);
        };
        self.crew = Some(crew);
        Ok(FileWatch::new(self.rt, self.alloc, asked))
    }

    fn open_side(
        &mut self,
        port: u16,
        by: Transport,
        number: u32,
    ) -> Result<NetSide<R>, OpenFault> {
        let Ok(crew) = crew_of(&self.crew, self.alloc) else {
            return Err(OpenFault::NoMemory);
        };
        let threads = self.sides.saturating_add(1);
        let line = match can_run(&self.rt, self.alloc, threads) {
            Ok(true) => match open_end(&self.rt, self.alloc, &mut self.last, (port, by, number)) {
                Ok(end) => {
                    self.sides = threads;
                    return Ok(NetSide::new(self.rt, self.alloc, end, port, crew));
                }
                Err(Unopened::NoMemory) => return Err(OpenFault::NoMemory),
                Err(Unopened::System(why)) => EdgeLine::NotOpen(by, port, why),
            },
            Ok(false) => EdgeLine::NoThreads(threads as u64),
            Err(_) => return Err(OpenFault::NoMemory),
        };
        say(&self.rt, self.alloc, &line);
        count(&mut self.open_faults);
        Err(OpenFault::Failed)
    }

    fn word(&mut self) -> u64 {
        word_of(&self.rt)
    }

    fn tell(&mut self, line: &[u8]) -> Wrote {
        if tell_line(&self.rt, line) {
            return Wrote::Ok;
        }
        count(&mut self.tell_faults);
        Wrote::Failed
    }
}

// The crew that a side joins, or one of its own where no watch was opened.
fn crew_of(
    crew: &Option<Arc<Crew, Global>>,
    alloc: Global,
) -> Result<Arc<Crew, Global>, AllocError> {
    match crew {
        Some(crew) => Arc::try_clone(crew),
        None => Ok(Arc::new(alloc, Crew::new(alloc))?),
    }
}

// A worker's share of a port. The first worker's opens it.
fn open_end(
    rt: &(impl Net + Files + Eprint),
    alloc: Global,
    last: &mut Option<Endpoint>,
    place: (u16, Transport, u32),
) -> Result<End, Unopened> {
    let (port, by, number) = place;
    if let Some(endpoint) = last {
        if number != 0 && endpoint.is_at(port, by) {
            return endpoint.share(rt, alloc, number);
        }
    }
    let mut endpoint = Endpoint::open(rt, alloc, port, by)?;
    let end = endpoint.share(rt, alloc, 0)?;
    if let Some(Apart { at, out }) = endpoint.take_apart() {
        say(rt, alloc, &EdgeLine::OpenAt(by, port, at));
        if !out.as_str().is_empty() {
            say(rt, alloc, &EdgeLine::LeftOut(by, port, out));
        }
    }
    *last = Some(endpoint);
    Ok(end)
}

// Says why a side wasn't opened. Where that fails, nothing is lost that the status tells.
fn say(rt: &impl Eprint, alloc: Global, line: &EdgeLine) {
    if let Ok(text) = line_text(alloc, line) {
        let _ = note_line(rt, text.as_str().as_bytes());
    }
}
