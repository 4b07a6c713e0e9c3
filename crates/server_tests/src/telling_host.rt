//! A host that opens nothing and tells so many lines.
ghost use Rattle.std.specs.Prelude.{None};

use dns_data::{Bytes, Transport};
use outside::{Host, OpenFault, Wrote};
use outside_mem::{MemSide, MemWatch};
use std::alloc::Global;

#[derive(Drop)]
pub struct TellingHost {
    pub alloc: Global,
    /// The lines that it has told.
    pub told: Vec<Bytes>,
    /// How many more it tells, before each line fails.
    pub left: u64,
    pub faults: u64,
}

impl TellingHost {
    pub fn new(alloc: Global, most: u64) -> TellingHost {
        TellingHost {
            alloc,
            told: Vec::new(alloc),
            left: most,
            faults: 0,
        }
    }
}

impl Host for TellingHost {
    type Side = MemSide;

    type Watch = MemWatch;

    ghost state = { λ h. record {
      told = None;
      counts = record { opens = 0; tells = h.faults };
      supply = None;
    } };

    fn open_watch(&mut self) -> Result<MemWatch, OpenFault> {
        Err(OpenFault::NoMemory)
    }

    fn open_side(
        &mut self,
        _port: u16,
        _by: Transport,
        _number: u32,
    ) -> Result<MemSide, OpenFault> {
        Err(OpenFault::NoMemory)
    }

    fn tell(&mut self, line: &[u8]) -> Wrote {
        if let Ok(line) = Bytes::from_slice(self.alloc, line) {
            if 0 < self.left && self.told.push(line).is_ok() {
                self.left -= 1;
                return Wrote::Ok;
            }
        }
        self.faults = self.faults.saturating_add(1);
        Wrote::Failed
    }
}
