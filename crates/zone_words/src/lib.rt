//! Zones as the words of a Corefile name them, and whether names are in them.
#![tactic(auto)]

mod covering;
mod reading;

pub use covering::is_in;
pub use reading::{is_net_word, name_zone, net_zone, read_zone, read_zones};
