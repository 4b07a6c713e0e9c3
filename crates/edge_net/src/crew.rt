use edge_asks::Timings;
use std::alloc::Global;
use std::sync::atomic::{AtomicU64, Ordering};
use std::sync::{Condvar, Mutex, Wait};
use std::time::{Clock, Duration};

// How long those that have begun wait for a further one to begin, in milliseconds.
const START: u64 = 5_000;

/// What the sides of a run and its watch share: how many sides there are, how many of them have
/// begun and how many still work, whether one has left, and the times of upstreams. Once one has
/// left, the others' receives end, and once all have, the watch does. Where not all have begun in
/// time, as where the system refuses a thread, all end.
#[derive(Drop)]
pub struct Crew {
    joined: AtomicU64,
    begun: AtomicU64,
    // When one has begun last, in milliseconds.
    last: AtomicU64,
    working: AtomicU64,
    // 1 once a side has left.
    left: AtomicU64,
    // 1 once a side had not begun in time.
    short: AtomicU64,
    // Whether all sides have left, or not all have begun in time.
    ended: Mutex<bool>,
    changed: Condvar,
    timings: Timings,
}

impl Crew {
    /// A crew without a side.
    pub fn new(alloc: Global) -> Crew {
        Crew {
            joined: AtomicU64::new(0),
            begun: AtomicU64::new(0),
            last: AtomicU64::new(u64::MAX),
            working: AtomicU64::new(0),
            left: AtomicU64::new(0),
            short: AtomicU64::new(0),
            ended: Mutex::new(false),
            changed: Condvar::new(),
            timings: Timings::new(alloc),
        }
    }

    /// What is known of the times of upstreams.
    pub fn timings(&self) -> &Timings {
        &self.timings
    }

    /// One side more works.
    pub fn join(&self) {
        self.joined.fetch_add(1, Ordering::SeqCst);
        self.working.fetch_add(1, Ordering::SeqCst);
    }

    /// How many sides there are.
    pub fn sides(&self) -> u64 {
        self.joined.load(Ordering::SeqCst)
    }

    /// A side begins to receive now, in milliseconds. The last one wakes the watch.
    pub fn begin(&self, rt: &impl Wait, now: u64) {
        self.last.store(now, Ordering::SeqCst);
        self.begun.fetch_add(1, Ordering::SeqCst);
        if self.is_whole() {
            let _ended = self.ended.lock(rt);
            self.changed.notify_all();
        }
    }

    /// Whether all sides have begun.
    pub fn is_whole(&self) -> bool {
        self.begun.load(Ordering::SeqCst) >= self.sides()
    }

    /// Whether a side has not begun now, in milliseconds, and the others have waited long enough.
    pub fn is_late(&self, now: u64) -> bool {
        !self.is_whole() && now.saturating_sub(self.last.load(Ordering::SeqCst)) >= START
    }

    /// Whether a side had not begun in time.
    pub fn is_short(&self) -> bool {
        self.short.load(Ordering::SeqCst) != 0
    }

    /// A side has not begun in time, so that all are to end. Says whether this is the first call.
    pub fn give_up(&self, rt: &impl Wait) -> bool {
        let before = self.short.swap(1, Ordering::SeqCst);
        let mut ended = self.ended.lock(rt);
        *ended = true;
        self.changed.notify_all();
        before == 0
    }

    /// Waits until all sides have begun, as long as it may take, and says whether they have.
    pub fn await_start<R: Wait + Clock>(&self, rt: &R) -> bool {
        use std::sync::CondvarTimeouts;
        let ended = self.ended.lock(rt);
        let time = Duration::from_millis(START);
        let (_ended, _) = self
            .changed
            .wait_timeout_while(rt, ended, time, |ended| !*ended && !self.is_whole());
        self.is_whole()
    }

    /// A side has left. Gives how many still work, and wakes the watch behind the last.
    pub fn leave(&self, rt: &impl Wait) -> u64 {
        self.left.store(1, Ordering::SeqCst);
        let before = self.working.fetch_sub(1, Ordering::SeqCst);
        if before <= 1 {
            let mut ended = self.ended.lock(rt);
            *ended = true;
            self.changed.notify_all();
        }
        before.saturating_sub(1)
    }

    /// Whether a side has left, so that the others are to end.
    pub fn is_ending(&self) -> bool {
        self.left.load(Ordering::SeqCst) != 0
    }

    /// Waits for so long, or until the last side has left, and says whether it has.
    pub fn sleep<R: Wait + Clock>(&self, rt: &R, time: Duration) -> bool {
        use std::sync::CondvarTimeouts;
        let ended = self.ended.lock(rt);
        let (ended, _) = self
            .changed
            .wait_timeout_while(rt, ended, time, |ended| !*ended);
        *ended
    }
}
