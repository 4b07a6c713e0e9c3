use dns_data::NoMemory;
use std::alloc::{AllocError, AllocFailed};

/// Why a line has no answer.
#[derive(Clone, Copy, Debug, PartialEq, Eq)]
pub enum CaseFault {
    /// It is no case.
    Bad,
    NoMemory,
}

impl From<NoMemory> for CaseFault {
    ghost use Rattle.std.specs.Prelude.{◌≡◌};
    ghost use Rattle.case_fields.specs.declared.fault.CaseFault.TheVariants as fault;

    ghost from_gives = { λ _ f. f ≡ fault.NoMemory };

    fn from(_: NoMemory) -> CaseFault {
        CaseFault::NoMemory
    }
}

impl From<AllocError> for CaseFault {
    ghost use Rattle.std.specs.Prelude.{◌≡◌};
    ghost use Rattle.case_fields.specs.declared.fault.CaseFault.TheVariants as fault;

    ghost from_gives = { λ _ f. f ≡ fault.NoMemory };

    fn from(_: AllocError) -> CaseFault {
        CaseFault::NoMemory
    }
}

impl<T: Drop> From<AllocFailed<T>> for CaseFault {
    ghost use Rattle.std.specs.Prelude.{◌≡◌};
    ghost use Rattle.case_fields.specs.declared.fault.CaseFault.TheVariants as fault;

    ghost from_gives = { λ _ f. f ≡ fault.NoMemory };

    fn from(_: AllocFailed<T>) -> CaseFault {
        CaseFault::NoMemory
    }
}
