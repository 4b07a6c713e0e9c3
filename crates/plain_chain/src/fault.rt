use chain_meaning::Refusal;
use dns_data::NoMemory;

/// Why a datagram has no meaning.
#[derive(Clone, Copy, Debug, PartialEq, Eq)]
pub enum PlainFault {
    /// The bundle is refused.
    Refused(Refusal),
    /// The block that is asked has an extra's directive, and what extras say isn't known here.
    HasExtra,
    /// The marks end too early, or one is another than what is taken there.
    Short,
    NoMemory,
}

impl From<NoMemory> for PlainFault {
    ghost use Rattle.std.specs.Prelude.{◌≡◌};
    ghost use Rattle.plain_chain.specs.declared.fault.PlainFault.TheVariants as variants;

    ghost from_gives = { λ _ fault. fault ≡ variants.NoMemory };

    fn from(_: NoMemory) -> PlainFault {
        PlainFault::NoMemory
    }
}
