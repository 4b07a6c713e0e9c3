use chain_meaning::Refusal;
use dns_data::Text;
use std::fmt;
use std::fmt::{Display, Formatter, Write};

/// How a run ended.
#[derive(Debug, Drop)]
pub enum Status {
    Usage,
    /// The file of this name could not be read.
    ReadFailed(Text),
    OpenFailed,
    /// The line of another status could not be told.
    TellFailed,
    Refused(Refusal),
    /// The first configuration asks for more extras of a name than the program brings.
    StockShort { name: Text, asked: u64, had: u64 },
    NoMemory,
    /// A worker could not receive any more.
    WorkerFailed,
    Ended,
}

/// The line that tells a status. `Ended` and `TellFailed` have none.
impl Display for Status {
    ghost use Rattle.std.specs.Prelude.{Some};
    ghost use Rattle.dns_server.specs.Messages.{status_text};

    ghost output = { λ how. Some (status_text how) };

    fn fmt<W: Write>(&self, f: &mut Formatter<W>) -> fmt::Result {
        match self {
            Status::Usage => f.write_str(
                "usage: dnschain serve --conf FILE [--port N] [--workers N] [--queries N], or dnschain load N",
            ),
            Status::ReadFailed(name) => write!(f, "cannot read {}", name.as_str()),
            Status::OpenFailed => f.write_str("cannot open"),
            Status::Refused(refusal) => write!(f, "{refusal}"),
            Status::StockShort { name, asked, had } => {
                write!(f, "stock of {}: asked {asked}, had {had}", name.as_str())
            }
            Status::NoMemory => f.write_str("out of memory"),
            Status::WorkerFailed => f.write_str("a worker could not receive"),
            Status::TellFailed | Status::Ended => Ok(()),
        }
    }
}
