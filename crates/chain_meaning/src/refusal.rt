use corefile_blocks::{CorefileFault, WordsFault};
use dns_data::Limit;
use plugin_api::DirectiveWhy;
use std::fmt;
use std::fmt::{Display, Formatter, Write};
use zone_file::ZoneWhy;

/// Why a configuration is not served.
#[derive(Clone, Copy, Debug, PartialEq, Eq)]
pub enum Refusal {
    NoCorefile,
    Corefile(CorefileFault),
    /// The line of a directive that no plugin has.
    Unknown { line: u32 },
    /// The line of a directive, or of its body, and what is wrong there.
    Directive { line: u32, why: DirectiveWhy },
    /// The line of a directive, and of the file that it names, and what is wrong there.
    Zone { line: u32, at: u32, why: ZoneWhy },
    /// The number is the first that is too large.
    TooMany { what: Limit, number: u64 },
}

impl Display for Refusal {
    ghost use Rattle.std.specs.Prelude.{Some};
    ghost use Rattle.chain_meaning.specs.RefusalTexts.{refusal_text};

    ghost output = { λ refusal. Some (refusal_text refusal) };

    fn fmt<W: Write>(&self, f: &mut Formatter<W>) -> fmt::Result {
        match self {
            Refusal::NoCorefile => f.write_str("no corefile"),
            Refusal::Corefile(CorefileFault::Words(fault)) => match fault {
                WordsFault::NotText { line } => write!(f, "corefile line {line}: not UTF-8"),
                WordsFault::OpenQuote { line } => write!(f, "corefile line {line}: open quote"),
                WordsFault::QuoteTail { line } => {
                    write!(f, "corefile line {line}: text after quote")
                }
                WordsFault::NoMemory => f.write_str("out of memory"),
            },
            Refusal::Corefile(CorefileFault::Block { line, why }) => {
                write!(f, "corefile line {line}: block: {}", why.text())
            }
            Refusal::Corefile(CorefileFault::NoSnippet { line }) => {
                write!(f, "corefile line {line}: no snippet or file")
            }
            Refusal::Corefile(CorefileFault::ImportLoop { line }) => {
                write!(f, "corefile line {line}: import too deep")
            }
            Refusal::Corefile(CorefileFault::DoubleKey { line }) => {
                write!(f, "corefile line {line}: zone and port given twice")
            }
            Refusal::Corefile(CorefileFault::TooMany { what, number }) => {
                write!(f, "too many {}: {number}", what.text())
            }
            Refusal::Corefile(CorefileFault::NoMemory) => f.write_str("out of memory"),
            Refusal::Unknown { line } => write!(f, "corefile line {line}: unknown directive"),
            Refusal::Directive { line, why } => {
                write!(f, "corefile line {line}: directive: {}", why.text())
            }
            Refusal::Zone { line, at, why } => {
                write!(
                    f,
                    "corefile line {line}: zone file line {at}: {}",
                    why.text()
                )
            }
            Refusal::TooMany { what, number } => { write!(f, "too many {}: {number}", what.text()) }
        }
    }
}
