//! A worker: it takes datagrams from its side, serves each by the chain that its pin gives, and
//! ends.
#![tactic(auto)]

mod turn;
mod worker;
mod working;

pub use chain_build::{Chain, Room};
pub use turn::{Turned, take_turn};
pub use worker::{Tally, Worker};
pub use working::{work, work_once};
