//! The blocks of a Corefile, with its snippets and imports put in their places.
#![tactic(auto)]

mod bundle;
mod double;
mod fault;
mod forms;
mod import;
mod key_index;
mod keys;
mod parts;
mod place;
mod places;
mod port_list;
mod reader;
mod reading;
mod seeking;
mod shared;
mod snippets;
mod stack;
mod wanted;

pub use bundle::Bundle;
pub use corefile_words::{Pair, Pairs, WordsFault};
pub use dns_data::{
    Block, BlockKey, BlockKeys, Blocks, Directive, Directives, FileText, FileTexts, Limit, Line,
    Lines, Texts,
};
pub use fault::{BlockWhy, CorefileFault};
pub use import::file_of;
pub use port_list::ports;
pub use reading::{read_blocks, wants};
pub use seeking::Seeker;
pub use wanted::{file_word, hosts_word};
