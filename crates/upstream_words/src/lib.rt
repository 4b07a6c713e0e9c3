//! Upstreams as the words of a directive name them, by themselves or by files of `nameserver` lines
//! (resolv.conf(5)).
#![tactic(auto)]

mod servers;
mod upstream;
mod words;

pub use servers::add_servers;
pub use upstream::read_upstream;
pub use words::{read_word, read_words};
