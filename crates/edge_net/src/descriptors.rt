//! How many of the process's descriptors its connections may take.
ghost use Rattle.std.specs.Prelude.{◌≡◌};
ghost use Rattle.edge_net.specs.Descriptors.{first_kept};

use libc::types::rlimit;

// How many connections leave at least to sockets, files and streams.
const KEPT: u64 = 32;

/// The first descriptor that is no connection's, where a process may have so many: the last 32, or
/// the last eighth where that is more, stay for files and sockets.
pub fn first_kept(limit: u64) -> u64
    ensures { result ≡ first_kept limit }
{
    limit.saturating_sub(KEPT.max(limit / 8))
}

/// The same by the limit that the process has now. None is kept where the system doesn't tell it.
pub(crate) fn first_kept_now() -> u64 {
    let mut limit = rlimit {
        rlim_cur: 0,
        rlim_max: 0,
    };
    if libc::getrlimit(libc::RLIMIT_NOFILE, &mut limit) < 0 {
        return u64::MAX;
    }
    first_kept(limit.rlim_cur)
}
