//! The plugin `rewrite`: queries of another name or type, and answers that fit what was asked.
#![tactic(auto)]

mod changing;
mod finder;
mod made;
mod matching;
mod plan;
mod plan_data;
mod reading;
mod renaming;
mod restoring;
mod room;
mod rule;
mod steps;
mod text;
mod words;

pub use changing::change;
pub use plan::RewritePlan;
pub use plan_data::Changed;
pub use restoring::restore;
pub use room::RewriteRoom;
pub use steps::{Step, Steps};
