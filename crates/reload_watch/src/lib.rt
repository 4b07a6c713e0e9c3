//! The looks for a changed configuration: what was read first, one look, and all of them until
//! there are no more.
#![tactic(auto)]

mod fault;
mod first;
mod found;
mod look;
mod publishing;
mod reloads;
mod source;
mod turns;
mod watcher;

pub use fault::ReadFault;
pub use first::read_first;
pub use look::look_once;
pub use publishing::show_published;
pub use source::Source;
pub use turns::watch;
pub use watcher::Watcher;
