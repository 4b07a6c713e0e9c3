//! A chain that counts its pins.
ghost use Rattle.std.specs.Prelude.{◌≡◌, IfOk, length};
ghost use Rattle.pin_table.specs.{AreNew};
ghost use Rattle.pin_soak.specs.Chains.{identity_of, log_of};

use pin_table::Tagged;
use std::alloc::{AllocError, Global};

#[derive(Drop)]
pub struct Chain {
    pub serial: u64,
    pub worker: u64,
    /// How often it was pinned.
    pub pins: u64,
}

impl Tagged for Chain {
    type Note = u64;

    type Kind = u64;

    ghost use Rattle.pin_soak.specs.Chains.{identity_of, log_of};

    ghost identity = { identity_of };

    ghost log = { log_of };
}

/// A chain for each of so many workers.
pub fn chains_of(alloc: Global, serial: u64, workers: u64) -> Result<Vec<Chain>, AllocError>
    ensures count { IfOk result (λ chains. length chains.items ≡ workers) }
    ensures new { IfOk result (λ chains. AreNew identity_of log_of serial 0 chains.items) }
{
    let mut chains = Vec::new(alloc);
    for worker in 0..workers {
        chains.push(Chain {
            serial,
            worker,
            pins: 0,
        })?;
    }
    Ok(chains)
}
