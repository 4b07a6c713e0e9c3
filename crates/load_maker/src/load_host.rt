//! The host of a load.
ghost use Rattle.std.specs.Prelude.{◌≡◌, IfOk};
ghost use Rattle.load_maker.specs.LoadHost.{host_of, load_state};

use crate::Load;
use dns_data::{NoMemory, Transport};
use outside::{Host, OpenFault, Wrote};
use outside_mem::{MemHost, MemSide, MemWatch};
use std::alloc::Global;

/// A host in memory of which no call fails: past its sides and its watch it answers want of memory.
#[derive(Drop)]
pub struct LoadHost {
    host: MemHost,
}

impl LoadHost {
    /// The host of a load: its UDP side, its TCP side and its watch.
    pub fn new(alloc: Global, load: &Load) -> Result<LoadHost, NoMemory>
        ensures { IfOk result (λ host. load_state host ≡ host_of load.now) }
    {
        let mut sides = Vec::with_capacity(alloc, 2)?;
        sides.push(MemSide::new(alloc, load.side(alloc, Transport::Udp)?)?)?;
        sides.push(MemSide::new(alloc, load.side(alloc, Transport::Tcp)?)?)?;
        let watch = MemWatch::new(alloc, load.watch(alloc)?)?;
        Ok(LoadHost {
            host: MemHost::new(alloc, sides, watch),
        })
    }
}

impl Host for LoadHost {
    type Side = MemSide;

    type Watch = MemWatch;

    ghost use Rattle.load_maker.specs.LoadHost.{load_state};

    ghost state = { load_state };

    fn open_watch(&mut self) -> Result<MemWatch, OpenFault> {
        match self.host.open_watch() {
            Ok(watch) => Ok(watch),
            Err(_) => Err(OpenFault::NoMemory),
        }
    }

    fn open_side(&mut self, port: u16, by: Transport, number: u32) -> Result<MemSide, OpenFault> {
        match self.host.open_side(port, by, number) {
            Ok(side) => Ok(side),
            Err(_) => Err(OpenFault::NoMemory),
        }
    }

    fn tell(&mut self, line: &[u8]) -> Wrote {
        self.host.tell(line)
    }
}
