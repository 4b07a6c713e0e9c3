//! A host of sides and a watch that wait, over a host in memory.
ghost use Rattle.std.specs.Prelude.{None};

use crate::stage::Stage;
use crate::staged_side::{StagedSide, Waits};
use crate::staged_watch::{LookSteps, NO_STEPS, StagedWatch};
use dns_data::Transport;
use outside::{Host, OpenFault, Wrote};
use outside_mem::MemHost;
use std::sync::Arc;

// A side that waits for nothing.
const NEVER: Waits = Waits {
    first: 0,
    again: 0,
    holds: 0,
    until: 0,
    sent: 0,
};

/// What the sides over UDP, by number, that over TCP, and the watch wait for and tell.
#[derive(Clone, Copy, Debug)]
pub struct Staging {
    pub udp: [Waits; 3],
    pub tcp: Waits,
    pub looks: LookSteps,
}

/// No party waits.
pub const FREE: Staging = Staging {
    udp: [NEVER, NEVER, NEVER],
    tcp: NEVER,
    looks: NO_STEPS,
};

/// The reply over UDP waits for that over TCP.
pub const PAIR: Staging = Staging {
    udp: [Waits { until: 1, ..NEVER }, NEVER, NEVER],
    tcp: Waits { sent: 1, ..NEVER },
    looks: NO_STEPS,
};

/// Three workers hold a replaced generation each. The looks 0 to 2 wait for 1, 3 and 5, and look 4
/// tells 7 and waits for 8. Behind the generations 1 to 3 the watch tells 2, 4 and 6, and behind 4
/// it tells 9.
pub const THREE: Staging = Staging {
    udp: [
        Waits {
            again: 8,
            holds: 1,
            until: 7,
            ..NEVER
        },
        Waits {
            first: 2,
            holds: 3,
            until: 9,
            ..NEVER
        },
        Waits {
            first: 4,
            holds: 5,
            until: 9,
            ..NEVER
        },
    ],
    tcp: NEVER,
    looks: LookSteps {
        tells: [0, 0, 0, 0, 7],
        waits: [1, 3, 5, 0, 8],
        behind: [0, 2, 4, 6, 9],
    },
};

/// Two workers hold the first generation: look 0 waits for both, and look 2 lets them go on, one
/// behind the other, and waits until both are back.
pub const HELD: Staging = Staging {
    udp: [
        Waits {
            again: 4,
            holds: 1,
            until: 3,
            ..NEVER
        },
        NEVER,
        NEVER,
    ],
    tcp: Waits {
        first: 1,
        again: 5,
        holds: 2,
        until: 4,
        ..NEVER
    },
    looks: LookSteps {
        tells: [0, 0, 3, 0, 0],
        waits: [2, 0, 5, 0, 0],
        behind: [0, 0, 0, 0, 0],
    },
};

#[derive(Drop)]
pub struct StagedHost {
    pub host: MemHost,
    pub stage: Arc<Stage>,
    pub staging: Staging,
}

impl Host for StagedHost {
    type Side = StagedSide;

    type Watch = StagedWatch;

    ghost state = { λ h. record (⟦<MemHost as Host>⟧.state h.host) { supply = None } };

    fn open_watch(&mut self) -> Result<StagedWatch, OpenFault> {
        let Ok(stage) = Arc::try_clone(&self.stage) else {
            return Err(OpenFault::NoMemory);
        };
        match self.host.open_watch() {
            Ok(watch) => Ok(StagedWatch {
                watch,
                looks: 0,
                steps: self.staging.looks,
                stage,
            }),
            Err(OpenFault::Failed) => Err(OpenFault::Failed),
            Err(OpenFault::NoMemory) => Err(OpenFault::NoMemory),
        }
    }

    fn open_side(
        &mut self,
        port: u16,
        by: Transport,
        number: u32,
    ) -> Result<StagedSide, OpenFault> {
        let Ok(stage) = Arc::try_clone(&self.stage) else {
            return Err(OpenFault::NoMemory);
        };
        let waits = waits_of(self.staging, by, number);
        match self.host.open_side(port, by, number) {
            Ok(side) => Ok(StagedSide {
                side,
                waits,
                received: 0,
                stage,
                left: 0,
            }),
            Err(OpenFault::Failed) => Err(OpenFault::Failed),
            Err(OpenFault::NoMemory) => Err(OpenFault::NoMemory),
        }
    }

    fn tell(&mut self, line: &[u8]) -> Wrote {
        match self.host.tell(line) {
            Wrote::Ok => Wrote::Ok,
            Wrote::Failed => Wrote::Failed,
        }
    }
}

fn waits_of(staging: Staging, by: Transport, number: u32) -> Waits {
    match by {
        Transport::Udp => match staging.udp.get(number as usize) {
            Some(waits) => *waits,
            None => NEVER,
        },
        Transport::Tcp => staging.tcp,
    }
}
