use edge_sockets::{Awaited, Readiness, await_socket};
use std::os::fd::OwnedFd;
use std::time::Clock;

/// The microseconds since some start, which never go back. None where the clock can't be read.
pub(crate) fn instant(clock: &impl Clock) -> Option<u64> {
    match clock.monotonic() {
        Ok(time) => Some(u64::try_from(time.as_micros()).unwrap_or(u64::MAX)),
        Err(_) => None,
    }
}

/// What a wait for a socket gave. Late: the time is up.
#[derive(Clone, Copy, Debug, PartialEq, Eq)]
pub(crate) enum Waited {
    Ready,
    Late,
    Failed,
}

/// When the time of a try is up, in microseconds of the clock.
#[derive(Clone, Copy, Debug)]
pub(crate) struct Deadline {
    at: u64,
}

impl Deadline {
    /// So long behind a moment.
    pub fn behind(moment: u64, time: u64) -> Deadline {
        Deadline {
            at: moment.saturating_add(time),
        }
    }

    // What is left, in whole milliseconds; none where the time is up, or the clock can't be read.
    fn left(self, clock: &impl Clock) -> Option<u16> {
        let now = instant(clock)?;
        if self.at <= now {
            return None;
        }
        let left = (self.at - now) / 1_000;
        Some(u16::try_from(left.saturating_add(1)).unwrap_or(u16::MAX))
    }

    /// Waits for a socket while there is time.
    pub fn wait(self, clock: &impl Clock, socket: &OwnedFd, what: Awaited) -> Waited {
        for _ in 0..u64::MAX {
            let Some(left) = self.left(clock) else {
                return Waited::Late;
            };
            match await_socket(socket, what, left) {
                Readiness::Ready => return Waited::Ready,
                Readiness::Nothing => {}
                Readiness::Failed => return Waited::Failed,
            }
        }
        Waited::Late
    }
}
