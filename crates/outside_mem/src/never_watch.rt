ghost use Rattle.std.specs.Prelude.{◌≡◌, [], IfOk, option_map};
ghost use Rattle.outside_mem.specs.Unused.{watch_script};

use crate::watch::MemWatch;
use dns_data::{NoMemory, Text};
use outside::{Look, Made, PatternMaker, ReadOut, Watch, WatchMark, WatchScript, Wrote};
use std::alloc::Global;

/// A watch in memory of which no call fails: its counts of failing calls are the constant 0, and it
/// tells no script. It makes patterns as the other one does, and counts what it refuses.
#[derive(Drop)]
pub struct NeverWatch {
    watch: MemWatch,
    ghost read: { (watch_script watch).fail_read ≡ [] },
    ghost note: { (watch_script watch).fail_note ≡ [] },
}

impl NeverWatch {
    ghost use Rattle.outside_mem.specs.Never.{WatchNeverFails, IsUnusedNeverWatch};
    ghost use Rattle.outside_mem.specs.Never.{never_watch_script};

    /// The script's lists of failing calls are empty.
    pub fn new(alloc: Global, script: WatchScript) -> Result<NeverWatch, NoMemory>
        requires never { WatchNeverFails script }
        ensures script { IfOk result (λ w. never_watch_script w ≡ script) }
        ensures unused { IfOk result IsUnusedNeverWatch }
    {
        let watch = MemWatch::new(alloc, script)?;
        Ok(NeverWatch { watch })
    }

    /// The marks told so far, or None where they are no longer told.
    pub fn journal(&self) -> Option<&[WatchMark]>
        ensures { option_map (λ marks. marks.now) result ≡ self.now.watch.journal }
    {
        self.watch.journal()
    }
}

impl PatternMaker for NeverWatch {
    ghost use Rattle.outside_mem.specs.Never.{never_watch_state};

    ghost state = { never_watch_state };

    ghost last = { λ w. w.watch.maker.last };

    fn make(&mut self, alloc: Global, text: &Text) -> Made {
        self.watch.make(alloc, text)
    }
}

impl Watch for NeverWatch {
    ghost quiet = { λ _. tt };

    ghost answered = { λ _. tt };

    fn look(&mut self, interval: u64, jitter: u64) -> Look {
        self.watch.look(interval, jitter)
    }

    fn read(&mut self, name: &Text) -> ReadOut {
        self.watch.read(name)
    }

    fn note(&mut self, line: &[u8]) -> Wrote {
        self.watch.note(line)
    }

    fn saw_published(&mut self, serial: u64) {
        self.watch.saw_published(serial);
    }
}
