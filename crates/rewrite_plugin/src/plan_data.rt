use crate::steps::Steps;
use dns_data::Query;
use std::alloc::Global;

/// A query behind the rules, and those that were applied, in their order.
#[derive(Debug, Drop)]
pub struct Changed {
    pub query: Query,
    pub steps: Steps,
}

impl Changed {
    /// Room for a query that is changed.
    pub fn new(alloc: Global) -> Changed {
        Changed {
            query: Query::blank(alloc),
            steps: Steps::new(alloc),
        }
    }
}
