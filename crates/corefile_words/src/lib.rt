//! The lines of words of a Corefile, with the variables of the environment put in.
#![tactic(auto)]

mod fault;
mod line;
mod lines;
mod quoted;
mod reading;
mod variable;
mod word;

pub use fault::WordsFault;
pub use lines::first_line;
pub use reading::read_words;
pub use word::{Pair, Pairs, Word, WordLine, WordLines, Words};
