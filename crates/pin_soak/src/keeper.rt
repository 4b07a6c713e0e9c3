//! The publisher, and what came home to it.
ghost use Rattle.std.specs.Prelude.{◌≡◌};
ghost use Rattle.pin_soak.specs.Keepers.{IsKeeping};

use crate::chains::{Chain, chains_of};
use crate::ledger::Ledger;
use pin_table::{FreeSlot, PinTable, Published, Publisher};
use std::alloc::{AllocError, Global};

#[derive(Drop)]
pub struct Keeper {
    pub publisher: Publisher<Chain>,
    pub workers: u64,
    pub home: Vec<Chain>,
    pub ledger: Ledger,
    pub made: u64,
}

/// Publishes a generation where there is a free slot, and says whether it did.
pub fn renew(
    table: &PinTable<Chain>,
    keeper: &mut Keeper,
    alloc: Global,
) -> Result<bool, AllocError>
    requires { IsKeeping table.now keeper.old }
    ensures keeping { IsKeeping table.now keeper.new }
    ensures made { keeper.new.made ≡ keeper.old.made }
{
    if !keeper.home.is_empty() || keeper.home.capacity() < 128 {
        return Ok(false);
    }
    let serial = table.published(&keeper.publisher);
    let chains = chains_of(alloc, serial, keeper.workers)?;
    match table.free_slot(&mut keeper.publisher, &mut keeper.home) {
        FreeSlot::Free(slot) => {
            keeper.ledger.enter_all(&mut keeper.home);
            match table.publish(&mut keeper.publisher, slot, chains) {
                Published::Ok(_) => Ok(true),
                Published::SerialsSpent(_) => Ok(false),
            }
        }
        FreeSlot::AllPinned(_, _, _) => Ok(false),
    }
}

/// So many publications, in at most 100,000,000 tries.
pub fn keep(table: &PinTable<Chain>, keeper: &mut Keeper, alloc: Global, most: u64)
    requires { IsKeeping table.now keeper.old }
    ensures { IsKeeping table.now keeper.new }
{
    for _ in 0..100_000_000_u64 {
        if keeper.made >= most {
            return;
        }
        match renew(table, keeper, alloc) {
            Ok(true) => keeper.made += 1,
            Ok(false) => {}
            Err(_) => return,
        }
    }
}
