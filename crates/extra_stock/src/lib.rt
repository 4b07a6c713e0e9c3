//! The extras of a program, in a stock and in chains: a seat for each directive of an extra, what
//! those of a block say in turn, and whether a stock has as many as are asked for.
#![tactic(auto)]

mod passing;
mod seat;
mod seats;
mod shortage;
mod spares;
mod stock;

pub use passing::{Passing, PassingBook};
pub use seats::Seats;
pub use shortage::{Short, find_short};
pub use spares::{give_blocks, seat_blocks};
pub use stock::Stock;
