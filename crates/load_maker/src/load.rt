ghost use Rattle.std.specs.Prelude.{◌≡◌, IfOk};
ghost use Rattle.load_maker.specs.Load.{load_of};

use crate::queries::all_queries;
use crate::texts::{conf, second, zone};
use dns_data::{Bytes, NoMemory, Seq};
use outside::Datagram;
use std::alloc::Global;

/// What a load is run with.
#[derive(Debug, Drop)]
pub struct Load {
    /// The Corefile at the start.
    pub conf: Bytes,
    /// The Corefile as the one look finds it.
    pub second: Bytes,
    /// The file /db.load: the zone load.test.
    pub zone: Bytes,
    /// The queries: the even ones come over UDP, the odd ones over TCP.
    pub datagrams: Seq<Datagram>,
}

/// The data of a load of so many queries: the same for the same number.
pub fn make(alloc: Global, count: u32) -> Result<Load, NoMemory>
    ensures { IfOk result (λ load. load ≡ load_of count) }
{
    Ok(Load {
        conf: conf(alloc)?,
        second: second(alloc)?,
        zone: zone(alloc)?,
        datagrams: all_queries(alloc, count)?,
    })
}
