//! The status of a run whose workers have ended.
ghost use Rattle.std.specs.Prelude.{◌≡◌};
ghost use Rattle.std.specs.List.{list_any};
ghost use Rattle.dns_server.specs.Report.{IsEndStatus, is_failed, is_starved};
ghost use Rattle.dns_server.specs.States.{side_runs};

use crate::report::Done;
use crate::status::Status;
use outside::Side;
use run_meaning::WorkEnd;

/// The status of a run, by how its workers ended and how often they and the looks met want of
/// memory.
pub(crate) fn end_status<S: Side>(dones: &[Done<S>], looking: u64) -> Status
    ensures { IsEndStatus (side_runs S.state dones.now) looking result }
{
    if 0 < looking || some_starved(dones) {
        return Status::NoMemory;
    }
    if some_failed(dones) {
        return Status::WorkerFailed;
    }
    Status::Ended
}

// Whether a worker met want of memory.
fn some_starved<S>(dones: &[Done<S>]) -> bool
    ensures { result ≡ list_any (λ done. is_starved done.starved done.end) dones.now }
{
    dones.iter().any(|done| is_starved(done.starved, done.end))
}

// Whether a worker could not receive any more.
fn some_failed<S>(dones: &[Done<S>]) -> bool
    ensures { result ≡ list_any (λ done. is_failed done.end) dones.now }
{
    dones.iter().any(|done| is_failed(done.end))
}

// Whether a worker that counted so much want of memory, and ended so, met any.
fn is_starved(starved: u64, end: WorkEnd) -> bool
    ensures { result ≡ is_starved starved end }
{
    match end {
        WorkEnd::NoMemory => true,
        WorkEnd::End | WorkEnd::RecvFailed => 0 < starved,
    }
}

fn is_failed(end: WorkEnd) -> bool
    ensures { result ≡ is_failed end }
{
    match end {
        WorkEnd::RecvFailed => true,
        WorkEnd::End | WorkEnd::NoMemory => false,
    }
}
