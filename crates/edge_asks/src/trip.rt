ghost use Rattle.std.specs.Prelude.{◌≡◌};
ghost use Rattle.edge_asks.specs.Trips.{first_trip, next_trip, wait_of};

// The least and the most time that an ask may take, in microseconds. Round trips tell of answers
// that an upstream has at hand: one that it has to ask for itself takes some more round trips, to
// servers that may be far away. So half a second is the least, whatever the round trips were.
const LEAST: u64 = 500_000;

pub(crate) const MOST: u64 = 2_000_000;

/// The round trips to an upstream, in microseconds: smoothed, and how far the last ones were from
/// that. RFC 6298, section 2.
#[derive(Clone, Copy, Debug, PartialEq, Eq)]
pub struct Trip {
    pub smooth: u32,
    pub spread: u32,
}

impl Trip {
    /// What the first round trip tells.
    pub fn first(took: u32) -> Trip
        ensures { result ≡ first_trip took }
    {
        Trip {
            smooth: took,
            spread: took / 2,
        }
    }

    /// What one more tells.
    pub fn next(&self, took: u32) -> Trip
        ensures { result ≡ next_trip self.now took }
    {
        let apart = if took < self.smooth {
            self.smooth - took
        } else {
            took - self.smooth
        };
        Trip {
            smooth: ((7 * u64::from(self.smooth) + u64::from(took)) / 8) as u32,
            spread: ((3 * u64::from(self.spread) + u64::from(apart)) / 4) as u32,
        }
    }

    /// How long an answer may take.
    pub fn wait(&self) -> u64
        ensures { result ≡ wait_of self.now }
    {
        let wait = u64::from(self.smooth) + 4 * u64::from(self.spread);
        wait.max(LEAST).min(MOST)
    }
}
