ghost use Rattle.std.specs.Prelude.{◌≡◌, ◌++◌, IfOk, OnOk};
ghost use Rattle.std.specs.Fmt.{decimal};
ghost use Rattle.plain_plugins.specs.Notes.{asked_text, error_line, log_line, outcome_text};
ghost use Rattle.plain_plugins.specs.Notes.{transport_text};

use dns_data::{NoMemory, Query, Text, Transport};
use numbers::put_decimal;
use plugin_api::{Cause, Code};
use std::alloc::Global;
use type_names::{kind_text, rcode_text};

/// How a query ended, as `log` notes it.
#[derive(Clone, Copy, Debug, PartialEq, Eq)]
pub enum LogOutcome {
    /// A reply with this RCODE.
    Rcode(u8),
    /// No reply.
    Dropped,
}

/// The line that `errors` notes of a query that ends with a code: `error CODE TYPE NAME CAUSE`.
#[tactic(auto, unfolding(crate::specs::Notes::error_line))]
pub fn error_line(alloc: Global, query: &Query, code: Code, cause: Cause) -> Result<Text, NoMemory>
    ensures { IfOk result (λ line. line ≡ error_line query.now code cause) }
{
    let mut line = Text::from_str(alloc, "error ")?;
    line.append(code.text())?;
    line.append(" ")?;
    put_asked(alloc, &mut line, query)?;
    line.append(cause.text())?;
    Ok(line)
}

/// The line that `log` notes of a query: `query ADDRESS PORT TRANSPORT TYPE NAME RCODE`.
#[tactic(auto, unfolding(crate::specs::Notes::log_line))]
pub fn log_line(alloc: Global, query: &Query, outcome: LogOutcome) -> Result<Text, NoMemory>
    ensures { IfOk result (λ line. line ≡ log_line query.now outcome) }
{
    let mut line = Text::from_str(alloc, "query ")?;
    let client = query.client.text(alloc)?;
    line.append(client.as_str())?;
    line.append(" ")?;
    let port = decimal(alloc, query.port)?;
    line.append(port.as_str())?;
    line.append(transport_text(query.by))?;
    put_asked(alloc, &mut line, query)?;
    put_outcome(alloc, &mut line, outcome)?;
    Ok(line)
}

// Adds type and name, with a space behind each.
fn put_asked(alloc: Global, line: &mut Text, query: &Query) -> Result<(), NoMemory>
    ensures { OnOk result (line.new ≡ line.old ++ asked_text query.now) }
{
    let kind = kind_text(alloc, query.kind)?;
    line.append(kind.as_str())?;
    line.append(" ")?;
    let name = query.name.text(alloc)?;
    line.append(name.as_str())?;
    line.append(" ")
}

fn put_outcome(alloc: Global, line: &mut Text, outcome: LogOutcome) -> Result<(), NoMemory>
    ensures { OnOk result (line.new ≡ line.old ++ outcome_text outcome) }
{
    match outcome {
        LogOutcome::Rcode(rcode) => {
            let text = rcode_text(alloc, rcode)?;
            line.append(text.as_str())
        }
        LogOutcome::Dropped => line.append("DROP"),
    }
}

fn decimal(alloc: Global, number: u16) -> Result<Text, NoMemory>
    ensures { IfOk result (λ text. text ≡ decimal number) }
{
    let mut text = String::with_capacity(alloc, 5)?;
    put_decimal(&mut text, number)?;
    Ok(Text::of(text))
}

fn transport_text(by: Transport) -> &'static str
    ensures { result.now ≡ transport_text by }
{
    match by {
        Transport::Udp => " udp ",
        Transport::Tcp => " tcp ",
    }
}
