//! The caches that outlive a configuration: held under their names while a chain uses them.
#![tactic(auto)]

mod caches;
mod calls;
mod held;
mod judge;
mod name;
mod uses;

pub use caches::Caches;
pub use judge::BlockJudge;
pub use name::{CacheName, NamedCache};
pub use uses::{HeldCache, LentCache, PARTS};
