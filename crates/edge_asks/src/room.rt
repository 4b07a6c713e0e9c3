use crate::deadline::{Deadline, Waited};
use dns_data::Bytes;
use edge_sockets::{Awaited, Moved, receive_some};
use outside::Outcome;
use std::alloc::Global;
use std::os::fd::OwnedFd;
use std::time::Clock;

// As many bytes as a datagram can have.
const LARGEST: usize = 65_535;

/// Room for the datagrams of upstreams, which is made at the first.
#[derive(Drop)]
pub(crate) struct Room {
    alloc: Global,
    bytes: Vec<u8>,
}

impl Room {
    pub fn new(alloc: Global) -> Room {
        Room {
            alloc,
            bytes: Vec::new(alloc),
        }
    }

    /// Waits for the next datagram while there is time.
    pub fn receive(&mut self, clock: &impl Clock, socket: &OwnedFd, until: Deadline) -> Outcome {
        if self.bytes.len() < LARGEST && self.bytes.resize(LARGEST, 0).is_err() {
            return Outcome::NoMemory;
        }
        for _ in 0..u64::MAX {
            match until.wait(clock, socket, Awaited::Bytes) {
                Waited::Ready => {}
                Waited::Late => return Outcome::Silence,
                Waited::Failed => return Outcome::Failed,
            }
            match receive_some(socket, self.bytes.as_mut_slice()) {
                Moved::Some(count) => return got(self.alloc, &self.bytes[..count]),
                Moved::Blocked => {}
                Moved::Failed => return Outcome::Failed,
            }
        }
        Outcome::Silence
    }
}

fn got(alloc: Global, bytes: &[u8]) -> Outcome {
    match Bytes::from_slice(alloc, bytes) {
        Ok(bytes) => Outcome::Got(bytes),
        Err(_) => Outcome::NoMemory,
    }
}
