//! Why reading a configuration gives nothing to serve by, and what a look answers then.
ghost use Rattle.std.specs.Prelude.{◌≡◌};
ghost use Rattle.reload_watch.specs.Faults.{answer_to, read_fault};

use chain_meaning::Refusal;
use corefile_bundle::GatherFault;
use dns_data::Text;
use run_meaning::Looking;

/// Why there is nothing to serve by.
#[derive(Debug, Drop)]
pub enum ReadFault {
    Refused(Refusal),
    /// The file of this name could not be read.
    ReadFailed(Text),
    NoMemory,
}

// What a gathering that gave no bundle comes to.
pub(crate) fn read_fault(fault: GatherFault) -> ReadFault
    ensures { result ≡ read_fault fault }
{
    match fault {
        GatherFault::NoCorefile => ReadFault::Refused(Refusal::NoCorefile),
        GatherFault::ReadFailed { name } => ReadFault::ReadFailed(name),
        GatherFault::TooMany { what, number } => {
            ReadFault::Refused(Refusal::TooMany { what, number })
        }
        GatherFault::NoMemory => ReadFault::NoMemory,
    }
}

// What a look answers to a fault.
pub(crate) fn answer_to(fault: ReadFault) -> Looking
    ensures { result ≡ answer_to fault }
{
    match fault {
        ReadFault::Refused(refusal) => Looking::Refused(refusal),
        ReadFault::ReadFailed(name) => Looking::ReadFailed(name),
        ReadFault::NoMemory => Looking::NoMemory,
    }
}
