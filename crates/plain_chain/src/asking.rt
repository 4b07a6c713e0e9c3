use chain_build::BlockChain;
use dns_data::Query;
use std::alloc::Global;

/// A query on its way through a chain.
#[derive(Clone, Copy)]
pub struct Asking<'a> {
    pub alloc: Global,
    pub chain: &'a BlockChain,
    pub query: &'a Query,
}
