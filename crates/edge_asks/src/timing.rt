ghost use Rattle.std.specs.Prelude.{◌≡◌};
ghost use Rattle.edge_asks.specs.Timings.{new_timing, patience_of, asked, answered, silenced};

use crate::trip::{MOST, Trip};
use dns_data::Transport;

// How long an ask of a silent upstream may take while another finds out whether it is only slow.
const SHORT: u64 = 200_000;

// Behind the start of an ask that may take all of the time, none of a silent upstream does for so
// long: its own time, and as much again.
const APART: u64 = 4_000_000;

/// What is known of the time in which an upstream answers over one transport, in microseconds.
#[derive(Clone, Copy, Debug, PartialEq, Eq)]
pub struct Timing {
    /// None where it never answered.
    pub trip: Option<Trip>,
    /// Whether the last ask that ended in time or not was answered by silence.
    pub silent: bool,
    /// From when on an ask of it, while it is silent, may take all of the time.
    pub full: u64,
}

impl Timing {
    /// Nothing is known.
    pub fn new() -> Timing
        ensures { result ≡ new_timing }
    {
        Timing {
            trip: None,
            silent: false,
            full: 0,
        }
    }

    /// How long an ask that begins now may take.
    pub fn patience(&self, by: Transport, now: u64) -> u64
        ensures { result ≡ patience_of self.now by now }
    {
        if self.silent {
            return if self.full <= now { MOST } else { SHORT };
        }
        match &self.trip {
            None => MOST,
            Some(trip) => match by {
                Transport::Udp => trip.wait(),
                Transport::Tcp => MOST,
            },
        }
    }

    /// What is known once an ask has begun now.
    pub fn asked(&self, by: Transport, now: u64) -> Timing
        ensures { result ≡ asked self.now by now }
    {
        let full = if self.patience(by, now) == MOST {
            now.saturating_add(APART)
        } else {
            self.full
        };
        Timing {
            trip: self.trip,
            silent: self.silent,
            full,
        }
    }

    /// What is known once it has answered, within so long.
    pub fn answered(&self, took: u32) -> Timing
        ensures { result ≡ answered self.now took }
    {
        let trip = match &self.trip {
            None => Trip::first(took),
            Some(trip) => trip.next(took),
        };
        Timing {
            trip: Some(trip),
            silent: false,
            full: self.full,
        }
    }

    /// What is known once it was silent.
    pub fn silenced(&self) -> Timing
        ensures { result ≡ silenced self.now }
    {
        Timing {
            trip: self.trip,
            silent: true,
            full: self.full,
        }
    }
}
