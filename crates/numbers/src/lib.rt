//! Decimal numbers in texts, read and printed, and durations.
#![tactic(auto)]

mod below;
mod digits;
mod duration;
mod printing;

pub use below::read_below;
pub use digits::read_digits;
pub use duration::read_duration;
pub use printing::put_decimal;
