//! Whether a run's record is true.
#![tactic(auto)]

mod following;
mod history;
mod judging;
mod part;
mod place;
mod pool_history;
mod pool_rule;
mod record;
mod rows;
mod shard_history;
mod side_judging;
mod turn_meaning;
mod turning;
mod walk;
mod walking;

pub use judging::judge_orders;
pub use part::{PartRule, SharedCall, SharedCalls, SharedPart};
pub use place::{Order, Orders, Place, Places};
pub use pool_rule::PoolRule;
pub use record::{AuditFault, Marks, RunRecord, SideRecord, SideRecords, WatchMarks};
pub use side_judging::judge_side;
pub use turn_meaning::{TurnMeaning, TurnMeans};
pub use walk::SideFault;

#[cfg(test)]
mod side_tests;
#[cfg(test)]
mod tests;
