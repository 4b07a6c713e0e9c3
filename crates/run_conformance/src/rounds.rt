//! A host in memory whose sides and watch run in rounds: one turn of each side that has not ended,
//! in the order in which they were opened, and then one look. So a run in threads leaves the same
//! marks each time.
ghost use Rattle.std.specs.Prelude.{None};

use crate::plain::{Sources, reloads};
use corefile_words::Pair;
use dns_data::{Copies, NoMemory, Text, Transport};
use outside::{
    Host, Look, Made, OpenFault, Outcome, PatternMaker, ReadOut, Received, Seen, Side, Upstream,
    Watch, Wrote,
};
use outside_mem::{MemHost, MemSide, MemWatch};
use std::alloc::Global;
use std::sync::Arc;
use std::sync::atomic::{AtomicU64, Ordering};
use std::thread;

// As many looks at a word as a party waits for its place.
const LOOKS: u64 = 100_000_000;

// The number of the watch; those of the sides are below it.
const WATCH: u64 = 63;

/// Whose place it is. The sides have the numbers 0, 1 .., and only the party whose place it is
/// changes a word.
#[derive(Drop)]
pub struct Rounds {
    sides: AtomicU64,
    at: AtomicU64,
    // A bit for each party that has ended.
    ended: AtomicU64,
}

impl Rounds {
    /// The first side begins.
    pub fn new() -> Rounds {
        Rounds {
            sides: AtomicU64::new(0),
            at: AtomicU64::new(0),
            ended: AtomicU64::new(0),
        }
    }

    // Takes a place for one more side, and answers its number.
    fn join(&self) -> Option<u64> {
        let number = self.sides.load(Ordering::SeqCst);
        if WATCH <= number {
            return None;
        }
        self.sides.store(number + 1, Ordering::SeqCst);
        Some(number)
    }

    // Waits until it is this party's place.
    fn await_place(&self, party: u64) {
        for _ in 0..LOOKS {
            if self.at.load(Ordering::SeqCst) == party {
                return;
            }
            thread::yield_now();
        }
    }

    // This party takes no place any more.
    fn end(&self, party: u64) {
        let ended = self.ended.load(Ordering::SeqCst);
        self.ended.store(ended | bit_of(party), Ordering::SeqCst);
    }

    // It is the place of the next party that has not ended; where there is none, nobody's.
    fn pass(&self, party: u64) {
        let sides = self.sides.load(Ordering::SeqCst);
        let ended = self.ended.load(Ordering::SeqCst);
        let mut next = party;
        for _ in 0..=WATCH {
            next = behind(next, sides);
            if ended & bit_of(next) == 0 {
                self.at.store(next, Ordering::SeqCst);
                return;
            }
        }
        self.at.store(WATCH + 1, Ordering::SeqCst);
    }
}

// The party behind another one: the next side, the watch behind the last, and then the first.
fn behind(party: u64, sides: u64) -> u64 {
    let next = if party < WATCH { party + 1 } else { 0 };
    if next < sides { next } else { WATCH }
}

fn bit_of(party: u64) -> u64 {
    1u64.wrapping_shl((party & 63) as u32)
}

// The place of one party.
#[derive(Drop)]
struct Place {
    rounds: Arc<Rounds>,
    party: u64,
    holds: bool,
}

impl Place {
    // Gives it up, where it is held, and waits for it again.
    fn take(&mut self) {
        if self.holds {
            self.rounds.pass(self.party);
        }
        self.rounds.await_place(self.party);
        self.holds = true;
    }

    // Takes it no more.
    fn end(&mut self) {
        self.rounds.end(self.party);
        if self.holds {
            self.rounds.pass(self.party);
        }
        self.holds = false;
    }
}

/// A side that receives in its place. It tells nothing itself: the side in memory does.
#[derive(Drop)]
pub struct RoundSide {
    pub side: MemSide,
    place: Place,
    left: u64,
}

impl Side for RoundSide {
    ghost state = { λ s. record {
      journal = None;
      counts = (⟦<MemSide as Side>⟧.state s.side).counts;
      script = None;
      left = s.left;
    } };

    ghost quiet = { λ _. tt };

    ghost answered = { λ _. tt };

    fn recv(&mut self) -> Received {
        self.place.take();
        self.side.recv()
    }

    fn send(&mut self, reply: &[u8]) -> Wrote {
        self.side.send(reply)
    }

    fn now(&mut self) -> u64 {
        self.side.now()
    }

    fn word(&mut self) -> u64 {
        self.side.word()
    }

    fn ask(&mut self, to: &Upstream, by: Transport, message: &[u8]) -> Outcome {
        self.side.ask(to, by, message)
    }

    fn more(&mut self) -> Outcome {
        self.side.more()
    }

    fn note(&mut self, line: &[u8]) -> Wrote {
        self.side.note(line)
    }

    fn saw(&mut self, what: Seen<'_>) {
        self.side.saw(what);
    }

    fn leave(&mut self) {
        self.place.take();
        self.place.end();
        self.left = self.left.saturating_add(1);
    }
}

/// A watch that looks in its place, until what serves has no `reload`. It tells nothing itself.
#[derive(Drop)]
pub struct RoundWatch {
    pub watch: MemWatch,
    alloc: Global,
    place: Place,
    env: Vec<Pair>,
    port: u16,
}

impl PatternMaker for RoundWatch {
    ghost state = { λ w. record {
      journal = None;
      counts = (⟦<MemWatch as PatternMaker>⟧.state w.watch).counts;
      script = None;
      refusals = (⟦<MemWatch as PatternMaker>⟧.state w.watch).refusals;
    } };

    ghost last = { λ w. ⟦<MemWatch as PatternMaker>⟧.last w.watch };

    fn make(&mut self, alloc: Global, text: &Text) -> Made {
        self.watch.make(alloc, text)
    }
}

impl Watch for RoundWatch {
    ghost quiet = { λ _. tt };

    ghost answered = { λ _. tt };

    fn look(&mut self, interval: u64, jitter: u64) -> Look {
        self.place.take();
        match self.watch.look(interval, jitter) {
            Look::Look => Look::Look,
            Look::End => {
                self.place.end();
                Look::End
            }
        }
    }

    fn read(&mut self, name: &Text) -> ReadOut {
        self.watch.read(name)
    }

    fn note(&mut self, line: &[u8]) -> Wrote {
        self.watch.note(line)
    }

    fn saw_published(&mut self, serial: u64) {
        self.watch.saw_published(serial);
        let sources = Sources {
            env: &self.env,
            port: self.port,
            watch: self.watch.journal().unwrap_or(&[]),
        };
        let goes_on = reloads(self.alloc, &sources, serial).unwrap_or(true);
        if !goes_on {
            self.place.end();
        }
    }
}

/// A host of such sides, and such a watch.
#[derive(Drop)]
pub struct RoundHost {
    pub host: MemHost,
    alloc: Global,
    rounds: Arc<Rounds>,
    env: Vec<Pair>,
    port: u16,
}

impl RoundHost {
    /// Over a host in memory, for a run with this environment and port.
    pub fn new(
        alloc: Global,
        host: MemHost,
        env: &[Pair],
        port: u16,
    ) -> Result<RoundHost, NoMemory> {
        Ok(RoundHost {
            host,
            alloc,
            rounds: Arc::new(alloc, Rounds::new())?,
            env: pairs_of(alloc, env)?,
            port,
        })
    }

    // A party's place.
    fn place_of(&self, party: u64) -> Result<Place, NoMemory> {
        Ok(Place {
            rounds: Arc::try_clone(&self.rounds)?,
            party,
            holds: false,
        })
    }
}

impl Host for RoundHost {
    type Side = RoundSide;

    type Watch = RoundWatch;

    ghost state = { λ h. record (⟦<MemHost as Host>⟧.state h.host) { supply = None } };

    fn open_watch(&mut self) -> Result<RoundWatch, OpenFault> {
        let Ok(place) = self.place_of(WATCH) else {
            return Err(OpenFault::NoMemory);
        };
        let Ok(env) = pairs_of(self.alloc, &self.env) else {
            return Err(OpenFault::NoMemory);
        };
        match self.host.open_watch() {
            Ok(watch) => Ok(RoundWatch {
                watch,
                alloc: self.alloc,
                place,
                env,
                port: self.port,
            }),
            Err(OpenFault::Failed) => Err(OpenFault::Failed),
            Err(OpenFault::NoMemory) => Err(OpenFault::NoMemory),
        }
    }

    fn open_side(&mut self, port: u16, by: Transport, number: u32) -> Result<RoundSide, OpenFault> {
        let Some(party) = self.rounds.join() else {
            return Err(OpenFault::NoMemory);
        };
        let Ok(place) = self.place_of(party) else {
            return Err(OpenFault::NoMemory);
        };
        match self.host.open_side(port, by, number) {
            Ok(side) => Ok(RoundSide {
                side,
                place,
                left: 0,
            }),
            Err(OpenFault::Failed) => Err(OpenFault::Failed),
            Err(OpenFault::NoMemory) => Err(OpenFault::NoMemory),
        }
    }

    fn tell(&mut self, line: &[u8]) -> Wrote {
        match self.host.tell(line) {
            Wrote::Ok => Wrote::Ok,
            Wrote::Failed => Wrote::Failed,
        }
    }
}

fn pairs_of(alloc: Global, pairs: &[Pair]) -> Result<Vec<Pair>, NoMemory> {
    let mut copies = Vec::new(alloc);
    for pair in pairs {
        copies.push(pair.copy(alloc)?)?;
    }
    Ok(copies)
}
