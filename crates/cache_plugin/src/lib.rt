//! The plugin `cache`: one look for the answer to a query, and behind a miss at most one put.
#![tactic(auto)]

mod cache_use;
mod finding;
mod keeping;
mod sharing;

pub use cache_use::{CacheQuery, CacheUse, Decided, Found, Missed};
