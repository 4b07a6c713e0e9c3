ghost use Rattle.std.specs.Prelude.{◌≡◌, [], IfOk, option_map};
ghost use Rattle.outside_mem.specs.WatchTold.{TellsWatch, TellsWatch-prop};

use crate::faults::{count_read, hand_out, is_starved};
use crate::marks::{read, watch_noted};
use crate::telling::tell;
use crate::watch_feed::WatchFeed;
use dns_data::{NoMemory, Seq, Text};
use outside::{
    Look, Made, PatternMaker, ReadOut, RegexMaker, Watch, WatchMark, WatchScript, Wrote,
};
use std::alloc::Global;

/// A watch in memory. It follows its script and tells what it did, until memory runs out for its
/// journal.
#[derive(Drop)]
pub struct MemWatch {
    alloc: Global,
    feed: WatchFeed,
    maker: RegexMaker,
    journal: Option<Seq<WatchMark>>,
    read_faults: u64,
    note_faults: u64,
    ghost tells: { TellsWatch feed journal } by { TellsWatch-prop feed journal },
    ghost quiet_reads: { feed.read.fails ≡ [] → read_faults ≡ 0 },
    ghost quiet_notes: { feed.note.fails ≡ [] → note_faults ≡ 0 },
}

impl MemWatch {
    ghost use Rattle.outside_mem.specs.Unused.{IsUnusedWatch, watch_script};

    pub fn new(alloc: Global, script: WatchScript) -> Result<MemWatch, NoMemory>
        ensures script { IfOk result (λ w. watch_script w ≡ script) }
        ensures unused { IfOk result IsUnusedWatch }
    {
        Ok(MemWatch {
            alloc,
            feed: WatchFeed::new(script),
            maker: RegexMaker::new(),
            journal: Some(Seq::new(alloc)),
            read_faults: 0,
            note_faults: 0,
        })
    }

    /// The marks told so far, or None where they are no longer told.
    pub fn journal(&self) -> Option<&[WatchMark]>
        ensures { option_map (λ marks. marks.now) result ≡ self.now.journal }
    {
        match &self.journal {
            Some(marks) => Some(marks.as_slice()),
            None => None,
        }
    }
}

impl PatternMaker for MemWatch {
    ghost use Rattle.outside_mem.specs.Unused.{watch_state};

    ghost state = { watch_state };

    ghost last = { λ w. w.maker.last };

    fn make(&mut self, alloc: Global, text: &Text) -> Made {
        self.maker.make(alloc, text)
    }
}

impl Watch for MemWatch {
    ghost use Rattle.outside_mem.specs.WatchTold.{watch_answered};

    ghost quiet = { λ w. record { reads = w.quiet_reads; notes = w.quiet_notes } };

    ghost answered = { λ w. watch_answered w.feed w.journal w.tells };

    fn look(&mut self, interval: u64, jitter: u64) -> Look {
        match self.feed.look() {
            Look::Look => {
                tell(&mut self.journal, Ok(WatchMark::Look(interval, jitter)));
                Look::Look
            }
            Look::End => {
                tell(&mut self.journal, Ok(WatchMark::End));
                Look::End
            }
        }
    }

    fn read(&mut self, name: &Text) -> ReadOut {
        let out = self.feed.read(self.alloc, name);
        if is_starved(&out) {
            return out;
        }
        count_read(&mut self.read_faults, &out);
        let mark = read(self.alloc, name, &out);
        tell(&mut self.journal, mark);
        out
    }

    fn note(&mut self, line: &[u8]) -> Wrote {
        let wrote = hand_out(&mut self.feed.note, &mut self.note_faults);
        let mark = watch_noted(self.alloc, line, wrote);
        tell(&mut self.journal, mark);
        wrote
    }

    fn saw_published(&mut self, serial: u64) {
        tell(&mut self.journal, Ok(WatchMark::Published(serial)));
    }
}
