//! The answer of a zone to a question (RFC 1034, section 4.3.2), from any store of its records.
#![tactic(auto)]

mod answering;
mod find;
mod hosts;
mod names;
mod plain;
mod store;

pub use answering::{answer, lookup};
pub use find::{
    Find, Reached, Step, is_aliased_kind, nothing, push_one_denying, push_owned, target_from,
};
pub use hosts::host_of;
pub use names::{is_of, is_star, type_of};
pub use plain::PlainZone;
pub use store::ZoneStore;
