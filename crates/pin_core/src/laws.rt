//! What holds of the machine over every list of steps.
ghost use Rattle.std.specs.Prelude.{◌≡◌, ◌<◌, ◌≤◌, ℕ, List, length, map};
ghost use Rattle.pin_core.specs.declared.steps.PinStep.{PinStep};
ghost use Rattle.pin_core.specs.Machine.{IsSound, DrainsIdle, run, start};
ghost use Rattle.pin_core.specs.Log.{RetiresOnce, log_of};
ghost use Rattle.pin_core.specs.OneRun.{ArePinned, OnePinRun, pin_marks};

use crate::slots::{MOST_SERIALS, WORKERS};

/// After every list of steps the counts of slots and workers agree.
pub fn sound_always(workers: u32)
    requires { (0 < workers) × (workers ≤ WORKERS) }
    ensures { (steps : List PinStep) → IsSound (run (start workers) steps) }
{}

/// Over every list of steps a generation is drained at most once for each worker, after its last
/// pin.
pub fn retires_once(workers: u32)
    requires { (0 < workers) × (workers ≤ WORKERS) }

    // A drain that is made finds no open pin in its slot.
    ensures idle { (steps : List PinStep) → DrainsIdle (run (start workers) steps) }

    // The log is that of these steps, and it tells one retirement of each generation.
    ensures machine { (steps : List PinStep)
        → (log_of workers steps).machine ≡ run (start workers) steps }
    ensures once { (steps : List PinStep) → RetiresOnce (log_of workers steps) }
{}

/// Serials that never fall on any side, each below the number published, are the pins of one run
/// of the machine.
pub fn one_pin_run(workers: u32)
    requires { (0 < workers) × (workers ≤ WORKERS) }
    ensures { (published : ℕ) (serials : List (List ℕ)) → published ≤ MOST_SERIALS
        → length serials ≤ workers → ArePinned published serials
        → OnePinRun workers published (map pin_marks serials) }
{}
