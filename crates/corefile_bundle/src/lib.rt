//! A Corefile with all the files that it names, read over a watch.
#![tactic(auto)]

mod fault;
mod gathering;
mod regathering;

pub use corefile_blocks::Bundle;
pub use fault::GatherFault;
pub use gathering::gather;
pub use regathering::{Regathered, regather};
