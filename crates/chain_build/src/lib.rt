//! Chains that run: what is made of a bundle once, and the walk of a query through the chain of its
//! block.
#![tactic(auto)]

mod asking;
mod back;
mod block;
mod block_chain;
mod block_uses;
mod building;
mod caching;
mod chain;
mod checking;
mod compiling;
mod earlier;
mod ended;
mod extras;
mod fault;
mod front;
mod given;
mod held;
mod hits;
mod judges;
mod lending;
mod naming;
mod noting;
mod own;
mod places;
mod plans;
mod room;
mod serving;
mod translating;
mod walk;

pub use asking::{
    fill_query, header_reply, is_known_version, limit_of, opt_reply, query_of, reply_message,
    upper_code,
};
pub use back::{answer_behind, back_answer, run_back, run_behind};
pub use block::BlockChain;
pub use block_chain::{BackAnswerer, ChainRest, FrontAnswerer, FrontStep, MiddleRest};
pub use block_uses::BlockUses;
pub use building::{BuildFault, build, take_back};
pub use caching::run_inner;
pub use chain::Chain;
pub use checking::{ReadBundle, check, read_bundle, recheck};
pub use compiling::compile;
pub use ended::Ended;
pub use extras::{Extras, NoExtras};
pub use fault::CheckFault;
pub use front::{front_answer, run_front, run_middle};
pub use given::{Given, Hit};
pub use held::Held;
pub use judges::{AllTaken, Bench, Judges};
pub use naming::{Generation, Naming, name_caches};
pub use own::{OwnChain, OwnPlans};
pub use places::Places;
pub use plans::Plans;
pub use room::{FrontRoom, PluginRoom, Room, WalkRoom};
pub use serving::{Arrived, serve};
pub use walk::Walk;
