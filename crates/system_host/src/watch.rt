ghost use Rattle.std.specs.Prelude.{◌≡◌, None};

use crate::random_word::word_of;
use crate::reading::{Unread, read_regular};
use dns_data::{Bytes, Copies, Text};
use edge_net::{Crew, count, give_up};
use edge_sockets::{EdgeLine, Why, line_text, note_line};
use outside::{Look, Made, PatternMaker, ReadOut, RegexMaker, Watch, Wrote};
use std::alloc::Global;
use std::random::RandomSource;
use std::rt::Files;
use std::sync::{Arc, Wait};
use std::time::{Clock, Duration};

/// The watch over the files of the system. It tells no journal and no script, and counts its
/// failing calls.
#[derive(Drop)]
pub struct FileWatch<R: Wait + Files + Clock + RandomSource + Eprint + Drop> {
    rt: R,
    alloc: Global,
    maker: RegexMaker,
    crew: Arc<Crew, Global>,
    read_faults: u64,
    note_faults: u64,
}

impl<R: Wait + Files + Clock + RandomSource + Eprint + Drop> FileWatch<R> {
    pub fn new(rt: R, alloc: Global, crew: Arc<Crew, Global>) -> FileWatch<R>
        ensures counts { (result.read_faults ≡ 0) × (result.note_faults ≡ 0) }
        ensures refusals { result.maker.refused ≡ 0 }
    {
        FileWatch {
            rt,
            alloc,
            maker: RegexMaker::new(),
            crew,
            read_faults: 0,
            note_faults: 0,
        }
    }

    // Says why a file wasn't read. Where that fails, nothing is lost that a status or a look tells.
    fn say_why(&self, name: &Text, why: Why) {
        let Ok(name) = name.copy(self.alloc) else {
            return;
        };
        if let Ok(line) = line_text(self.alloc, &EdgeLine::NotRead(name, why)) {
            let _ = note_line(&self.rt, line.as_str().as_bytes());
        }
    }

    // A number below the limit, of the system's random source; 0 where that fails.
    fn below(&self, limit: u64) -> u64 {
        if limit == 0 {
            return 0;
        }
        word_of(&self.rt) % limit
    }
}

impl<R: Wait + Files + Clock + RandomSource + Eprint + Drop> PatternMaker for FileWatch<R> {
    ghost state = { λ w. record {
      journal = None;
      counts = record { reads = w.read_faults; notes = w.note_faults };
      script = None;
      refusals = w.maker.refused;
    } };

    ghost last = { λ w. w.maker.last };

    fn make(&mut self, alloc: Global, text: &Text) -> Made {
        self.maker.make(alloc, text)
    }
}

impl<R: Wait + Files + Clock + RandomSource + Eprint + Drop> Watch for FileWatch<R> {
    ghost quiet = { λ _. tt };

    ghost answered = { λ _. tt };

    /// The end comes as soon as all sides have left, or where not all have begun in time.
    fn look(&mut self, interval: u64, jitter: u64) -> Look {
        if !self.crew.await_start(&self.rt) {
            give_up(&self.rt, self.alloc, &self.crew);
            return Look::End;
        }
        let time = interval.saturating_add(self.below(jitter.saturating_add(1)));
        if self.crew.sleep(&self.rt, Duration::from_millis(time)) {
            return Look::End;
        }
        Look::Look
    }

    fn read(&mut self, name: &Text) -> ReadOut {
        match read_regular(&self.rt, self.alloc, name.as_str()) {
            Ok(bytes) => ReadOut::Got(Bytes::of(bytes)),
            Err(Unread::Missing) => ReadOut::Missing,
            Err(Unread::NoMemory) => ReadOut::NoMemory,
            Err(Unread::Failed(why)) => {
                count(&mut self.read_faults);
                self.say_why(name, why);
                ReadOut::Failed
            }
        }
    }

    fn note(&mut self, line: &[u8]) -> Wrote {
        if note_line(&self.rt, line) {
            return Wrote::Ok;
        }
        count(&mut self.note_faults);
        Wrote::Failed
    }

    fn saw_published(&mut self, _serial: u64) {}
}
