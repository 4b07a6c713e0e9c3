//! What a configuration means: the chain of each block, what a chain decides for a query and the
//! marks of a side, and which bundles are accepted. Most of it are definitions, in specs/.
#![tactic(auto)]

mod cause;
mod decision;
mod refusal;
mod served;

pub use cause::is_servfail;
pub use decision::{Decision, number, outcome_of};
pub use refusal::Refusal;
pub use served::{Served, Silence};
