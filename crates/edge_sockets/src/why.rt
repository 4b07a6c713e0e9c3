ghost use Rattle.std.specs.IoError.{raw_os_error};
ghost use Rattle.std.specs.Prelude.{◌≡◌, pos, unwrap_or, IfOk};
ghost use Rattle.edge_sockets.specs.Whys.{Means, edge_text};

use dns_data::{NoMemory, Text, Transport};
use std::alloc::Global;
use std::fmt::{Display, Formatter, Write};
use std::{fmt, io};

/// Why the system didn't open a port or read a file. Unnamed: the name can be no file's, so the
/// system wasn't asked. System: its own number of the error.
#[derive(Clone, Copy, Debug, PartialEq, Eq)]
pub enum Why {
    Denied,
    InUse,
    Descriptors,
    Memory,
    NotRegular,
    NotFolder,
    Links,
    Unnamed,
    System(u32),
}

impl Why {
    /// What an error's number means, by Linux's errno(3).
    pub fn of(number: i32) -> Why
        ensures { Means number result }
    {
        match number {
            libc::EPERM | libc::EACCES => Why::Denied,
            libc::EADDRINUSE => Why::InUse,
            libc::EMFILE | ENFILE => Why::Descriptors,
            libc::ENOMEM | ENOBUFS => Why::Memory,
            libc::EISDIR => Why::NotRegular,
            libc::ENOTDIR => Why::NotFolder,
            ELOOP => Why::Links,
            0 => Why::Unnamed,
            _ => Why::System(number.unsigned_abs()),
        }
    }

    /// Why a call of the kit failed. Where it has no number of the system, that is 0.
    pub fn of_error(error: &io::Error) -> Why
        ensures { Means (unwrap_or (raw_os_error error.now) (pos 0)) result }
    {
        Why::of(error.raw_os_error().unwrap_or(0))
    }
}

// These the kit doesn't name.
const ENFILE: i32 = 23;

const ELOOP: i32 = 40;

const ENOBUFS: i32 = 105;

impl Display for Why {
    ghost use Rattle.std.specs.Prelude.{Some};
    ghost use Rattle.edge_sockets.specs.Whys.{why_text};

    ghost output = { λ why. Some (why_text why) };

    fn fmt<W: Write>(&self, f: &mut Formatter<W>) -> fmt::Result {
        match self {
            Why::Denied => f.write_str("permission denied"),
            Why::InUse => f.write_str("address in use"),
            Why::Descriptors => f.write_str("too many open files"),
            Why::Memory => f.write_str("out of memory"),
            Why::NotRegular => f.write_str("not a regular file"),
            Why::NotFolder => f.write_str("not a folder on the way to it"),
            Why::Links => f.write_str("links that lead round in a circle"),
            Why::Unnamed => f.write_str("not a name that a file can have"),
            Why::System(number) => write!(f, "error {number}"),
        }
    }
}

/// What the edge says by itself beside the line of a status or a look.
#[derive(Debug, Drop)]
pub enum EdgeLine {
    NotOpen(Transport, u16, Why),
    NotRead(Text, Why),
    /// A port that somebody has at an address is open at these addresses alone.
    OpenAt(Transport, u16, Text),
    /// A port that somebody has isn't open at these addresses of the host.
    LeftOut(Transport, u16, Text),
    /// So many threads can't run at once.
    NoThreads(u64),
}

impl Display for EdgeLine {
    ghost use Rattle.std.specs.Prelude.{Some};
    ghost use Rattle.edge_sockets.specs.Whys.{edge_text};

    ghost output = { λ line. Some (edge_text line) };

    fn fmt<W: Write>(&self, f: &mut Formatter<W>) -> fmt::Result {
        match self {
            EdgeLine::NotOpen(Transport::Udp, port, why) => write!(
                f,
                "open udp port {port}: {why}"
            ),
            EdgeLine::NotOpen(Transport::Tcp, port, why) => write!(
                f,
                "open tcp port {port}: {why}"
            ),
            EdgeLine::NotRead(name, why) => write!(f, "read {}: {why}", name.as_str()),
            EdgeLine::OpenAt(Transport::Udp, port, at) => write!(
                f,
                "udp port {port} open at {}",
                at.as_str()
            ),
            EdgeLine::OpenAt(Transport::Tcp, port, at) => write!(
                f,
                "tcp port {port} open at {}",
                at.as_str()
            ),
            EdgeLine::LeftOut(Transport::Udp, port, at) => write!(
                f,
                "udp port {port} taken at {}",
                at.as_str()
            ),
            EdgeLine::LeftOut(Transport::Tcp, port, at) => write!(
                f,
                "tcp port {port} taken at {}",
                at.as_str()
            ),
            EdgeLine::NoThreads(count) => write!(
                f,
                "threads: resource temporarily unavailable: {count} asked for"
            ),
        }
    }
}

/// The bytes of such a line.
pub fn line_text(alloc: Global, line: &EdgeLine) -> Result<Text, NoMemory>
    ensures { IfOk result (λ text. text ≡ edge_text line.now) }
{
    Ok(Text::of(format!(in alloc; "{line}")?))
}
