use chain_meaning::Refusal;
use dns_data::{Seq, Text};
use pin_table::Left;
use std::fmt;
use std::fmt::{Display, Formatter, Write};

/// Ports in ascending order.
pub type Ports = Seq<u16>;

/// What one look for a changed configuration came to. Every answer but `Published` leaves what
/// serves as it was.
#[derive(Debug, Drop)]
pub enum Looking {
    /// The configuration that serves has no `reload`, so that no look is made.
    NoReload,
    /// The file of this name could not be read.
    ReadFailed(Text),
    /// What was read is what serves, byte for byte.
    Same,
    Refused(Refusal),
    /// The ports that are open, and other ones that were read.
    PortsDiffer { kept: Ports, read: Ports },
    /// As many generations were published as a run may have.
    SerialsSpent,
    /// Each of three replaced generations has queries that are being answered.
    AllPinned(Left, Left, Left),
    /// What was read asks for more extras of a name than are spare behind the sweeps.
    StockShort { name: Text, asked: u64, had: u64 },
    /// What was read serves from now on, under this serial.
    Published(u64),
    NoMemory,
}

/// The line that notes a look. `NoReload`, `Same` and `NoMemory` have none.
impl Display for Looking {
    ghost use Rattle.std.specs.Prelude.{Some};
    ghost use Rattle.run_meaning.specs.Messages.{look_text};

    ghost output = { λ looking. Some (look_text looking) };

    fn fmt<W: Write>(&self, f: &mut Formatter<W>) -> fmt::Result {
        match self {
            Looking::ReadFailed(name) => write!(f, "reload cannot read {}", name.as_str()),
            Looking::Refused(refusal) => write!(f, "reload refused: {refusal}"),
            Looking::PortsDiffer { kept: _, read: _ } => f.write_str("reload ports differ"),
            Looking::SerialsSpent => f.write_str("reload serials spent"),
            Looking::AllPinned(_, _, _) => f.write_str("reload all pinned"),
            Looking::StockShort { name, asked, had } => {
                write!(
                    f,
                    "reload stock of {}: asked {asked}, had {had}",
                    name.as_str()
                )
            }
            Looking::Published(serial) => write!(f, "reload published {serial}"),
            Looking::NoReload | Looking::Same | Looking::NoMemory => Ok(()),
        }
    }
}
