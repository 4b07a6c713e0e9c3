ghost use Rattle.std.specs.Prelude.{◌≡◌};
ghost use Rattle.outside.specs.Script.{is_to_fail, used_up};
ghost use Rattle.outside_mem.specs.Calls.{counted};

use std::marker::Model;

/// The calls of one kind: the numbers, from 0, of those that are to fail, and how many were counted
/// so far. The count stays at the last value of u64.
#[derive(Drop)]
pub(crate) struct Calls {
    fails: Vec<u64>,
    counted: u64,
    // How many of the counted calls were not to fail.
    used: u64,
}

impl Model for Calls {
    ghost use Rattle.std.specs.Prelude.{◌≡◌};
    ghost use Rattle.outside.specs.Script.{used_up};
    ghost use Rattle.outside_mem.specs.Calls.{CallsData};

    ghost Value = { CallsData };

    ghost view = { λ c. record { fails = c.fails.items; counted = c.counted } };

    ghost invariant = { λ c. c.used ≡ used_up c.fails.items c.counted };
}

impl Calls {
    pub fn new(fails: Vec<u64>) -> Calls
        ensures { result ≡ record { fails = fails.items; counted = 0 } }
    {
        Calls {
            fails,
            counted: 0,
            used: 0,
        }
    }

    /// Whether the next call is to fail.
    pub fn is_to_fail(&self) -> bool
        ensures { result ≡ is_to_fail self.now.fails self.now.counted }
    {
        self.fails.contains(&self.counted)
    }

    /// How many items of a list the counted calls have used up.
    pub fn used(&self) -> u64
        ensures { result ≡ used_up self.now.fails self.now.counted }
    {
        self.used
    }

    /// Counts the next call.
    pub fn count(&mut self)
        ensures { self.new ≡ counted self.old }
    {
        if self.counted < u64::MAX {
            if !self.fails.contains(&self.counted) {
                self.used += 1;
            }
            self.counted += 1;
        }
    }
}
