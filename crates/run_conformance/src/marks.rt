//! Marks as lines.

use case_fields::{CaseFault, bytes_field};
use dns_data::{Text, Transport};
use outside::{Class, InnerMark, Key, Mark, Outcome, ReadOut, Upstream, WatchMark};
use std::alloc::Global;

/// What a side did or saw.
pub fn mark_text(alloc: Global, mark: &Mark) -> Result<String, CaseFault> {
    match mark {
        Mark::Got(_) => Ok(String::from_str(alloc, "got")?),
        Mark::RecvEnd => Ok(String::from_str(alloc, "recvend")?),
        Mark::RecvFailed => Ok(String::from_str(alloc, "recvfailed")?),
        Mark::Pinned(serial) => Ok(format!(in alloc; "pinned {serial}")?),
        Mark::Unpinned(serial) => Ok(format!(in alloc; "unpinned {serial}")?),
        Mark::Now(now) => Ok(format!(in alloc; "now {now}")?),
        Mark::Looked(key, now, found) => {
            let key = key_text(alloc, key)?;
            let found = if found.is_some() { "hit" } else { "miss" };
            Ok(format!(in alloc; "looked {} {now} {found}", key.as_str())?)
        }
        Mark::Put(key, entry, _) => {
            let key = key_text(alloc, key)?;
            let class = class_text(entry.class);
            let (born, life) = (entry.born, entry.life);
            Ok(format!(in alloc; "put {} {class} {born} {life}", key.as_str())?)
        }
        Mark::Inner(inner) => inner_text(alloc, inner),
        Mark::Noted(line, out) => line_text(alloc, "noted", line.as_slice(), *out),
        Mark::Sent(reply, out) => line_text(alloc, "sent", reply.as_slice(), *out),
    }
}

// What an entry is kept under: the name's text, the type, DO and CD.
fn key_text(alloc: Global, key: &Key) -> Result<String, CaseFault> {
    let name = key.name.text(alloc)?;
    let name = bytes_field(alloc, name.as_str().as_bytes())?;
    let (dnssec, cd) = (u8::from(key.dnssec), u8::from(key.cd));
    Ok(format!(in alloc; "{} {} {dnssec} {cd}", name.as_str(), key.kind)?)
}

fn class_text(class: Class) -> &'static str {
    match class {
        Class::Success => "success",
        Class::Denial => "denial",
        Class::Servfail => "servfail",
    }
}

// What a plugin took from the outside.
fn inner_text(alloc: Global, inner: &InnerMark) -> Result<String, CaseFault> {
    match inner {
        InnerMark::Word(word) => Ok(format!(in alloc; "word {word}")?),
        InnerMark::Asked(to, by, message, outcome) => {
            ask_text(alloc, *to, *by, message.as_slice(), outcome)
        }
        InnerMark::More(outcome) => {
            let gave = outcome_text(alloc, outcome)?;
            Ok(format!(in alloc; "more {}", gave.as_str())?)
        }
        InnerMark::Drawn(number, down) => Ok(format!(in alloc; "drawn {number} {down}")?),
        InnerMark::Reported(upstream, agreed) => {
            Ok(format!(in alloc; "reported {upstream} {}", u8::from(*agreed))?)
        }
    }
}

// An ask of an upstream: where it is, the transport, the message, and what came of it.
fn ask_text(
    alloc: Global,
    to: Upstream,
    by: Transport,
    message: &[u8],
    outcome: &Outcome,
) -> Result<String, CaseFault> {
    let address = to.addr.text(alloc)?;
    let by = match by {
        Transport::Udp => "udp",
        Transport::Tcp => "tcp",
    };
    let message = bytes_field(alloc, message)?;
    let gave = outcome_text(alloc, outcome)?;
    let mut text = format!(in alloc; "asked {} {} {by} ", address.as_str(), to.port)?;
    text.push_str(message.as_str())?;
    text.push_str(" ")?;
    text.push_str(gave.as_str())?;
    Ok(text)
}

fn outcome_text(alloc: Global, outcome: &Outcome) -> Result<String, CaseFault> {
    match outcome {
        Outcome::Got(bytes) => {
            let field = bytes_field(alloc, bytes.as_slice())?;
            Ok(format!(in alloc; "got:{}", field.as_str())?)
        }
        Outcome::Silence => Ok(String::from_str(alloc, "silence")?),
        Outcome::Failed => Ok(String::from_str(alloc, "failed")?),
        Outcome::NoMemory => Err(CaseFault::NoMemory),
    }
}

/// What a watch did or saw.
pub fn watch_text(alloc: Global, mark: &WatchMark) -> Result<String, CaseFault> {
    match mark {
        WatchMark::Look(interval, jitter) => Ok(format!(in alloc; "look {interval} {jitter}")?),
        WatchMark::End => Ok(String::from_str(alloc, "end")?),
        WatchMark::Read(name, out) => read_text(alloc, name, out),
        WatchMark::Noted(line, out) => line_text(alloc, "noted", line.as_slice(), *out),
        WatchMark::Published(serial) => Ok(format!(in alloc; "published {serial}")?),
    }
}

fn read_text(alloc: Global, name: &Text, out: &ReadOut) -> Result<String, CaseFault> {
    let name = bytes_field(alloc, name.as_str().as_bytes())?;
    let gave = match out {
        ReadOut::Got(_) => "got",
        ReadOut::Missing => "missing",
        ReadOut::Failed => "failed",
        ReadOut::NoMemory => return Err(CaseFault::NoMemory),
    };
    Ok(format!(in alloc; "read {} {gave}", name.as_str())?)
}

// Bytes, and whether they went out.
fn line_text(alloc: Global, kind: &str, bytes: &[u8], out: bool) -> Result<String, CaseFault> {
    let field = bytes_field(alloc, bytes)?;
    Ok(format!(in alloc; "{kind} {} {}", field.as_str(), u8::from(out))?)
}
