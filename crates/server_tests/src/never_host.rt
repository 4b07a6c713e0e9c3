//! A host of two sides and a watch of which no call fails.
ghost use Rattle.std.specs.Prelude.{◌≡◌, None, Some};
ghost use Rattle.outside.specs.Causes.{no_host_faults};
ghost use Rattle.outside_mem.specs.Never.{IsUnusedNever, IsUnusedNeverWatch};
ghost use Rattle.outside_mem.specs.declared.never_side.NeverSide.{NeverSide};
ghost use Rattle.outside_mem.specs.declared.never_watch.NeverWatch.{NeverWatch};

use dns_data::Transport;
use outside::{Host, OpenFault, Wrote};
use outside_mem::{NeverSide, NeverWatch};

/// It gives a side over UDP, one over TCP and its watch, each once, and then has no memory for more.
/// Each line goes out.
#[derive(Drop)]
pub struct NeverHost {
    udp: Option<NeverSide>,
    tcp: Option<NeverSide>,
    watch: Option<NeverWatch>,
    ghost udp_unused: { (s : NeverSide) → udp ≡ Some s → IsUnusedNever s },
    ghost tcp_unused: { (s : NeverSide) → tcp ≡ Some s → IsUnusedNever s },
    ghost watch_unused: { (w : NeverWatch) → watch ≡ Some w → IsUnusedNeverWatch w },
}

impl NeverHost {
    pub fn new(udp: NeverSide, tcp: NeverSide, watch: NeverWatch) -> NeverHost
        requires udp { IsUnusedNever udp }
        requires tcp { IsUnusedNever tcp }
        requires watch { IsUnusedNeverWatch watch }
    {
        NeverHost {
            udp: Some(udp),
            tcp: Some(tcp),
            watch: Some(watch),
        }
    }
}

impl Host for NeverHost {
    type Side = NeverSide;

    type Watch = NeverWatch;

    ghost state = { λ _. record { told = None; counts = no_host_faults; supply = None } };

    fn open_watch(&mut self) -> Result<NeverWatch, OpenFault> {
        match self.watch.take() {
            Some(watch) => Ok(watch),
            None => Err(OpenFault::NoMemory),
        }
    }

    fn open_side(
        &mut self,
        _port: u16,
        by: Transport,
        _number: u32,
    ) -> Result<NeverSide, OpenFault> {
        let side = match by {
            Transport::Udp => self.udp.take(),
            Transport::Tcp => self.tcp.take(),
        };
        match side {
            Some(side) => Ok(side),
            None => Err(OpenFault::NoMemory),
        }
    }

    fn tell(&mut self, _line: &[u8]) -> Wrote {
        Wrote::Ok
    }
}
