//! How a chain decides a query, step by step. Most of it are definitions, in specs/.
#![tactic(auto)]

mod names;
mod picking;
mod reached;
mod says;

pub use names::step_names;
pub use picking::picked_line;
pub use reached::{Reached, StepName, StepNames, Trail};
pub use says::{acl_say, decision_say, rewrite_say};

#[cfg(test)]
mod tests;
