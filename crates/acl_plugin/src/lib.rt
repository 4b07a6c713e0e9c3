//! The plugin `acl`: which clients may ask what.
#![tactic(auto)]

mod kinds;
mod nets;
mod part;
mod plan;
mod policy;
mod reading;

pub use plan::{AclPlan, AclSay, decide};
pub use policy::{Action, Policy};
