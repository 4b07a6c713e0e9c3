//! The data of `dnschain load N`: a Corefile and the form that it changes to, a zone, and N
//! queries; the host that its run is over; and the lines of what the run came to.
#![tactic(auto)]

mod load;
mod load_host;
mod queries;
mod scripts;
mod summary;
mod telling;
mod texts;

pub use load::{Load, make};
pub use load_host::LoadHost;
pub use scripts::conf_name;
pub use summary::{Summary, sum_up};
pub use telling::tell_lines;
