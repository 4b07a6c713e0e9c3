use dns_data::NoMemory;

/// Why a text has no words. The line is the first that has a fault, and counts from 1.
#[derive(Clone, Copy, Debug, PartialEq, Eq)]
pub enum WordsFault {
    /// The line is not UTF-8.
    NotText { line: u32 },
    /// A quote that the line does not close.
    OpenQuote { line: u32 },
    /// A closing quote with something other than a space, a tab or the line's end behind it.
    QuoteTail { line: u32 },
    NoMemory,
}

impl From<NoMemory> for WordsFault {
    ghost use Rattle.std.specs.Prelude.{◌≡◌};
    ghost use Rattle.corefile_words.specs.declared.fault.WordsFault.TheVariants as variants;

    ghost from_gives = { λ _ fault. fault ≡ variants.NoMemory };

    fn from(_: NoMemory) -> WordsFault {
        WordsFault::NoMemory
    }
}
