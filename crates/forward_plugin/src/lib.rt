//! The plugin `forward`: other servers are asked, and the first answer that agrees is passed on.
#![tactic(auto)]

mod ask;
mod deciding;
mod making;
mod numbered;
mod options;
mod plan;
mod pool_calls;
mod pool_use;
mod pools;
mod reading;
mod reply;
mod rounds;
mod say;
mod seen;
mod side_calls;
mod turn;

pub use ask::ask_bytes;
pub use deciding::{ForwardQuery, decide};
pub use numbered::Numbered;
pub use options::Policy;
pub use plan::ForwardPlan;
pub use pool_use::PoolUse;
pub use pools::Pools;
pub use reply::{agreed_in, is_got};
pub use rounds::is_up;
pub use say::ForwardSay;
pub use turn::Turn;
