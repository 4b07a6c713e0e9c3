//! What a cache keeps, under which key, and for how long (RFC 2308, sections 5 and 7), by a
//! directive `cache`.
#![tactic(auto)]

mod ageing;
mod classes;
mod keys;
mod options;
mod plan;
mod reading;
mod settings;
mod weighing;

pub use ageing::{aged, seconds_left};
pub use classes::{Lived, class_of};
pub use keys::{key_of, shard_of};
pub use options::{Choice, Opens, Seen};
pub use plan::CachePlan;
pub use settings::{ClassRules, Settings};
pub use weighing::is_light;
