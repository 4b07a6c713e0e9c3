use dns_data::{Limit, NoMemory, Text};

/// Why reading gives no bundle.
#[derive(Debug, Drop)]
pub enum GatherFault {
    NoCorefile,
    /// The file of this name could not be read.
    ReadFailed { name: Text },
    /// The number is the first that is too large.
    TooMany { what: Limit, number: u64 },
    NoMemory,
}

impl From<NoMemory> for GatherFault {
    ghost use Rattle.std.specs.Prelude.{◌≡◌};
    ghost use Rattle.corefile_bundle.specs.declared.fault.GatherFault.TheVariants as fault;

    ghost from_gives = { λ _ f. f ≡ fault.NoMemory };

    fn from(_: NoMemory) -> GatherFault {
        GatherFault::NoMemory
    }
}
