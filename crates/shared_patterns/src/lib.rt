//! Compiled patterns that the plans of several configurations may share.
#![tactic(auto)]

mod making;
mod shared;

pub use making::{MadeShared, make_shared};
pub use shared::SharedPattern;
