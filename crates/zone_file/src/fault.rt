ghost use Rattle.std.specs.Prelude.{◌≡◌};
ghost use Rattle.zone_file.specs.Texts.{zone_text};

use dns_data::NoMemory;

/// Why a line of a zone file is refused.
#[derive(Clone, Copy, Debug, PartialEq, Eq)]
pub enum ZoneWhy {
    /// A word that begins with `$`, other than `$ORIGIN` and `$TTL`.
    Control,
    /// It spells no record.
    Syntax,
    /// The end, without an SOA record at the origin.
    NoSoa,
    /// A second SOA record, or one below the origin.
    TwoSoa,
    /// A CNAME record beside a record of another type.
    CnameMix,
}

impl ZoneWhy {
    /// The word for it, as an operator sees it.
    pub fn text(self) -> &'static str
        ensures { result.now ≡ zone_text self }
    {
        match self {
            ZoneWhy::Control => "control",
            ZoneWhy::Syntax => "syntax",
            ZoneWhy::NoSoa => "nosoa",
            ZoneWhy::TwoSoa => "twosoa",
            ZoneWhy::CnameMix => "cnamemix",
        }
    }
}

/// Why a text is no zone.
#[derive(Clone, Copy, Debug, PartialEq, Eq)]
pub enum ZoneFault {
    /// The first line that is refused, from 1.
    Bad { line: u32, why: ZoneWhy },
    /// More records than a zone may have.
    TooMany,
    NoMemory,
}

impl From<NoMemory> for ZoneFault {
    ghost use Rattle.std.specs.Prelude.{◌≡◌};
    ghost use Rattle.zone_file.specs.declared.fault.ZoneFault.TheVariants.{NoMemory as OutOfMemory};

    ghost from_gives = { λ _ fault. fault ≡ OutOfMemory };

    fn from(_: NoMemory) -> ZoneFault {
        ZoneFault::NoMemory
    }
}
