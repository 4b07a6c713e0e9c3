ghost use Rattle.std.specs.Prelude.{◌≤◌, vec_len};

use edge_sockets::{Awaited, Readiness, await_socket};
use outside::Upstream;
use std::alloc::Global;
use std::os::fd::OwnedFd;

// How many connections are kept.
const MOST: usize = 4;

// For how long one is kept that isn't used, in microseconds. Servers close them behind some time
// (RFC 7766, section 6.2.3), and what stands between may forget them without a word.
const IDLE: u64 = 10_000_000;

#[derive(Drop)]
struct Line {
    to: Upstream,
    socket: OwnedFd,
    // When it was used last.
    used: u64,
}

/// Connections to upstreams that are kept for the next ask: one to each, the one used last behind
/// the others.
#[derive(Drop)]
pub(crate) struct Lines {
    kept: Vec<Line>,
    ghost few: { vec_len kept ≤ 4 },
}

impl Lines {
    pub fn new(alloc: Global) -> Lines {
        Lines {
            kept: Vec::new(alloc),
        }
    }

    /// The connection to an upstream, which is kept no longer. One that was idle for too long is
    /// closed, and so is one on which anything came: its end, or what nobody asked for.
    pub fn take(&mut self, to: &Upstream, now: u64) -> Option<OwnedFd> {
        let at = self.kept.iter().position(|line| line.to == *to)?;
        if at >= self.kept.len() {
            return None;
        }
        let line = self.kept.remove(at);
        if now.saturating_sub(line.used) > IDLE {
            return None;
        }
        match await_socket(&line.socket, Awaited::Bytes, 0) {
            Readiness::Nothing => Some(line.socket),
            Readiness::Ready | Readiness::Failed => None,
        }
    }

    /// Keeps a connection. Where there are too many, the one that wasn't used for longest is
    /// closed.
    pub fn keep(&mut self, to: &Upstream, socket: OwnedFd, now: u64) {
        if self.kept.len() >= MOST {
            let _oldest = self.kept.remove(0);
        }
        let _ = self.kept.push(Line {
            to: *to,
            socket,
            used: now,
        });
    }
}
