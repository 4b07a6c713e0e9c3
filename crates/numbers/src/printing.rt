ghost use Rattle.std.specs.Prelude.{◌≡◌, ◌++◌, string_bytes, OnOk};
ghost use Rattle.std.specs.Fmt.{decimal};

use dns_lists::NoMemory;
use std::fmt::Write;

/// Adds a number in decimal digits to a text.
pub fn put_decimal(text: &mut String, number: u16) -> Result<(), NoMemory>
    ensures { OnOk result (string_bytes text.new ≡ string_bytes text.old ++ decimal number) }
{
    match write!(text, "{number}") {
        Ok(()) => Ok(()),
        Err(_) => Err(NoMemory),
    }
}
