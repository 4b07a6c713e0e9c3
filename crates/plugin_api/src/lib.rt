//! What every plugin shares: the order of directives, what a plugin answers, why a directive is
//! refused, the options in its body, and which block serves a name.
#![tactic(auto)]

mod extra;
mod fallthrough;
mod fault;
mod index;
mod names;
mod options;
mod picking;
mod ranks;
mod rulebook;
mod services;
mod verdict;

pub use extra::Extra;
pub use fallthrough::{fallthrough_of, fallthrough_why};
pub use fault::{DirectiveFault, DirectiveWhy};
pub use index::BlockIndex;
pub use names::rank;
pub use options::{empty_why, once, option_in, words_behind};
pub use picking::pick;
pub use ranks::Rank;
pub use rulebook::Rulebook;
pub use verdict::{Cause, Code, Verdict};
