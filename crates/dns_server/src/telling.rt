ghost use Rattle.std.specs.Prelude.{◌≡◌};
ghost use Rattle.outside.specs.Causes.{HostNoneFell};
ghost use Rattle.dns_server.specs.Telling.{TellsStatus, TellsLine, untold};

use crate::status::Status;
use outside::{Host, Wrote};
use std::alloc::Global;

/// Tells the line of a status, where it has one, and gives the status that stands then.
pub fn tell_status<H: Host>(alloc: Global, host: &mut H, status: Status) -> Status
    ensures tells { TellsStatus status result (H.state host.old) (H.state host.new) }
    ensures counts { HostNoneFell (H.state host.old).counts (H.state host.new).counts }
{
    match format!(in alloc; "{status}") {
        Ok(line) => tell_line(host, status, line.as_bytes()),
        Err(_) => tell_line(host, Status::NoMemory, b"out of memory"),
    }
}

// Tells this line of a status. An empty one is not told.
fn tell_line<H: Host>(host: &mut H, status: Status, line: &[u8]) -> Status
    ensures tells { TellsLine line.now status result (H.state host.old) (H.state host.new) }
    ensures counts { HostNoneFell (H.state host.old).counts (H.state host.new).counts }
{
    if line.is_empty() {
        return status;
    }
    match host.tell(line) {
        Wrote::Ok => status,
        Wrote::Failed => untold(status),
    }
}

// The status of a run whose line could not be told. A cause that comes before serving keeps its
// own.
fn untold(status: Status) -> Status
    ensures { result ≡ untold status }
{
    match status {
        Status::Usage | Status::ReadFailed(_) | Status::OpenFailed => status,
        _ => Status::TellFailed,
    }
}
