ghost use Rattle.std.specs.Prelude.{◌≡◌};
ghost use Rattle.outside.specs.{raised};
ghost use Rattle.edge_net.specs.Sides.{behind_outcome, no_tally};

use outside::Outcome;

/// How often each kind of call of a side failed, and how often it was told that its worker ended.
#[derive(Clone, Copy, Debug, PartialEq, Eq)]
pub struct Tally {
    pub recv: u64,
    pub send: u64,
    pub ask: u64,
    pub silences: u64,
    pub note: u64,
    pub left: u64,
}

impl Tally {
    pub fn new() -> Tally
        ensures { result ≡ no_tally }
    {
        Tally {
            recv: 0,
            send: 0,
            ask: 0,
            silences: 0,
            note: 0,
            left: 0,
        }
    }

    /// Counts what an upstream answered.
    pub(crate) fn count_outcome(&mut self, outcome: &Outcome)
        ensures { self.new ≡ behind_outcome self.old outcome.now }
    {
        match outcome {
            Outcome::Silence => count(&mut self.silences),
            Outcome::Failed => count(&mut self.ask),
            Outcome::Got(_) | Outcome::NoMemory => {}
        }
    }
}

/// Counts one more failing call. The count stays at the last value of 64 bits.
pub fn count(faults: &mut u64)
    ensures { faults.new ≡ raised faults.old }
{
    *faults = faults.saturating_add(1);
}
