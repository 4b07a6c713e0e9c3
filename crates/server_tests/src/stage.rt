//! What parties of a run wait for.

use std::sync::atomic::{AtomicU64, Ordering};

// As many looks at a word as one party waits for another.
const TURNS: u64 = 1_000_000_000;

/// How far a run is, and whether a party waited as long as it may.
#[derive(Drop)]
pub struct Stage {
    at: AtomicU64,
    late: AtomicU64,
}

impl Stage {
    pub fn new() -> Stage {
        Stage {
            at: AtomicU64::new(0),
            late: AtomicU64::new(0),
        }
    }

    /// Waits until the run is so far.
    pub fn reach(&self, at: u64) {
        for _ in 0..TURNS {
            if at <= self.at.load(Ordering::SeqCst) {
                return;
            }
        }
        self.late.store(1, Ordering::SeqCst);
    }

    /// The run is so far now; 0 changes nothing.
    pub fn set(&self, at: u64) {
        if at != 0 {
            self.at.store(at, Ordering::SeqCst);
        }
    }

    /// How far the run is, where nobody waited in vain.
    pub fn reached(&self) -> Option<u64> {
        if self.late.load(Ordering::SeqCst) != 0 {
            return None;
        }
        Some(self.at.load(Ordering::SeqCst))
    }
}
