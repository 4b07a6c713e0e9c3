//! How a datagram is decided, line by line: it is served over a side that records its marks, and
//! the plain evaluator tells the steps that these marks mean.
#![tactic(auto)]

mod asking;
mod explaining;
mod finding;
mod lines;
mod tracing;

pub use explaining::{Explained, explain};
