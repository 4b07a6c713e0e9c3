//! Lists of numbered slots: the order in which they were last used, and chains of slots.
#![tactic(auto)]

mod chains;
mod order;

pub use chains::Chains;
pub use order::Order;
