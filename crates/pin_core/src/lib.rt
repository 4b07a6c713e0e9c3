//! Which generation each worker has pinned, and when the slot of a replaced one may be used again.
#![tactic(auto)]

mod laws;
mod slots;
mod state;
mod steps;
#[cfg(test)]
mod tests;

pub use laws::{one_pin_run, retires_once, sound_always};
pub use slots::{MOST_PINS, MOST_SERIALS, Phase, PinWorker, SLOTS, Slot, WORKERS};
pub use state::{NoMemory, PinState};
pub use steps::{PinReply, PinStep};
