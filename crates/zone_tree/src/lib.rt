//! A zone as a tree of names by numbers, behind a table of all names that exist (RFC 1034, section
//! 4.3.2): a question costs one search, however large the zone.
#![tactic(auto)]

mod cuts;
mod find;
mod hosts;
mod marks;
mod node;
mod ready;
mod sets;
mod shape;
mod store;
mod tree;
mod zone;

pub use zone::TreeZone;
