use dns_data::Query;
use std::alloc::Global;

/// A query on its way through a chain, and what a walk works with.
#[derive(Drop)]
pub struct Walk<'a, R> {
    /// By which a worker may wait for the lock of a pool.
    pub rt: &'a R,
    pub alloc: Global,
    pub query: &'a Query,
}
