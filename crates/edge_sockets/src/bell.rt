use libc::net as c;
use os::FromRawFd;
use std::os::fd::{AsRawFd, OwnedFd};

// Linux's flag of eventfd(2): each read takes one of what was written.
const EFD_SEMAPHORE: i32 = 1;

/// What threads wake each other by while they wait in a poll: each ring is heard once.
#[derive(Drop)]
pub struct Bell {
    counter: OwnedFd,
}

impl Bell {
    /// None where the system has no descriptor left.
    pub fn new() -> Option<Bell> {
        let fd = c::eventfd(0, EFD_SEMAPHORE | c::EFD_NONBLOCK | c::EFD_CLOEXEC);
        if fd < 0 {
            return None;
        }
        // SAFETY: the descriptor was just opened, and nothing else has it.
        let counter = unsafe { OwnedFd::from_raw_fd(fd) };
        Some(Bell { counter })
    }

    /// The descriptor that has something to read once it was rung.
    pub fn fd(&self) -> i32 {
        self.counter.as_raw_fd()
    }

    pub fn ring(&self) {
        let _ = libc::write(self.fd(), &1u64.to_ne_bytes());
    }

    /// Takes one ring, where there is one.
    pub fn hear(&self) {
        let mut count = [0u8; 8];
        let _ = libc::read(self.fd(), &mut count);
    }
}
