use crate::timing::Timing;
use dns_data::Transport;
use outside::Upstream;
use std::alloc::Global;
use std::sync::{Mutex, Wait};

// Of how many upstreams and transports times are known. Behind these the oldest are forgotten.
const MOST: usize = 128;

// What is known of an upstream over one transport.
#[derive(Clone, Copy, Debug)]
struct Entry {
    to: Upstream,
    by: Transport,
    timing: Timing,
}

/// What the sides of a run know of the times of their upstreams.
#[derive(Drop)]
pub struct Timings {
    entries: Mutex<Vec<Entry>>,
}

impl Timings {
    pub fn new(alloc: Global) -> Timings {
        Timings {
            entries: Mutex::new(Vec::new(alloc)),
        }
    }

    /// How long an ask that begins now may take, in microseconds. The ask is known from now on.
    pub fn begin(&self, rt: &impl Wait, to: &Upstream, by: Transport, now: u64) -> u64 {
        let mut entries = self.entries.lock(rt);
        let Some(timing) = timing_of(&mut entries, to, by) else {
            return Timing::new().patience(by, now);
        };
        let patience = timing.patience(by, now);
        *timing = timing.asked(by, now);
        patience
    }

    /// The upstream has answered within so many microseconds, or, at None, was silent.
    pub fn end(&self, rt: &impl Wait, to: &Upstream, by: Transport, took: Option<u32>) {
        let mut entries = self.entries.lock(rt);
        if let Some(timing) = timing_of(&mut entries, to, by) {
            *timing = match took {
                Some(took) => timing.answered(took),
                None => timing.silenced(),
            };
        }
    }
}

// What is known of an upstream, which is nothing the first time. None where memory ran out.
fn timing_of<'a>(
    entries: &'a mut Vec<Entry>,
    to: &Upstream,
    by: Transport,
) -> Option<&'a mut Timing> {
    let at = match entries
        .iter()
        .position(|entry| entry.to == *to && entry.by == by)
    {
        Some(at) => at,
        None => {
            if entries.len() >= MOST {
                let _oldest = entries.remove(0);
            }
            let timing = Timing::new();
            let (to, at) = (*to, entries.len());
            if entries.push(Entry { to, by, timing }).is_err() {
                return None;
            }
            at
        }
    };
    match entries.get_mut(at) {
        Some(entry) => Some(&mut entry.timing),
        None => None,
    }
}
