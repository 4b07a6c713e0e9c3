//! The plugins whose rules are a few lines: `any`, `errors`, `log`, `reload`, `whoami`, and the
//! names that do nothing.
#![tactic(auto)]

mod any;
mod lines;
mod plan;
mod reload;
mod whoami;

pub use any::any_answer;
pub use lines::{LogOutcome, error_line, log_line};
pub use plan::PlainPlan;
pub use reload::{ReloadTimes, reload_times};
pub use whoami::whoami_answer;
