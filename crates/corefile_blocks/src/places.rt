//! Places of bytes, so that what is looked up is held against few others.
ghost use Rattle.std.specs.Prelude.{◌≡◌, ◌≤◌, ◌<◌, ◌^◌, IfOk};
ghost use Rattle.corefile_blocks.specs.Places.{AreFree, place_from};

use dns_data::{NoMemory, Seq};
use std::alloc::Global;

/// A byte weighs so many times less than the one in front of it.
const FACTOR: usize = 31;

/// So many places, and nothing at any.
pub(crate) fn free_places<T>(alloc: Global, count: usize) -> Result<Vec<Seq<T>>, NoMemory>
where
    T: Drop,
    ensures { IfOk result (λ places. AreFree places.items count) }
{
    let mut places = Vec::with_capacity(alloc, count)?;
    for made in 0..count {
        let _ = made;
        places.push(Seq::new(alloc))?;
    }
    Ok(places)
}

/// The place among so many to which bytes lead from another one.
pub(crate) fn place_from(count: usize, start: usize, bytes: &[u8]) -> usize
    requires few { count ≤ 2 ^ 32 }
    requires inside { start < count }
    ensures place { result ≡ place_from count start bytes.now }
    ensures inside { result < count }
{
    let mut place = start;
    for byte in bytes {
        place = (FACTOR * place + *byte as usize) % count;
    }
    place
}
