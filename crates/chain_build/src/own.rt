//! The chains of a program that brings no extras.

use crate::chain::Chain;
use crate::plans::Plans;
use extra_stock::{Passing, PassingBook};

pub type OwnPlans = Plans<PassingBook>;

pub type OwnChain = Chain<PassingBook, Passing>;
