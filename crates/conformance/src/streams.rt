//! Streams: `stream SIZE BYTES`.
ghost use Rattle.std.specs.Prelude.{◌<◌};

use crate::case::Case;
use case_fields::{CaseFault, put_bytes, put_word, read_bytes};
use dns_data::Buffer;
use std::alloc::Global;
use stream_connection::{Connection, Next};

/// The messages of a stream that comes by pieces of so many bytes, or `none`.
pub fn messages(alloc: Global, case: &Case<'_>, out: &mut String) -> Result<(), CaseFault> {
    let (size, bytes) = case.arguments()?;
    let Ok(size) = size.parse::<u16>() else {
        return Err(CaseFault::Bad);
    };
    let bytes = read_bytes(alloc, bytes)?;
    put_pieces(alloc, out, &bytes, usize::from(size).max(1))?;
    if out.is_empty() {
        put_word(out, "none")?;
    }
    Ok(())
}

// Adds the messages of a stream that comes by pieces of so many bytes.
fn put_pieces(alloc: Global, out: &mut String, bytes: &[u8], size: usize) -> Result<(), CaseFault>
    requires { 0 < size }
{
    let mut connection = Connection::new(alloc, 0);
    for piece in bytes.chunks(size) {
        connection.come(piece, 0)?;
        put_messages(alloc, out, &mut connection)?;
    }
    Ok(())
}

// Adds the messages that have come, 16 at most.
fn put_messages(
    alloc: Global,
    out: &mut String,
    connection: &mut Connection,
) -> Result<(), CaseFault> {
    let mut message = Buffer::new(alloc);
    for _ in 0..16 {
        match connection.next(&mut message, 0) {
            Next::Message => put_message(alloc, out, message.as_slice())?,
            Next::Part => return Ok(()),
            Next::NoMemory => return Err(CaseFault::NoMemory),
        }
    }
    Ok(())
}

fn put_message(alloc: Global, out: &mut String, message: &[u8]) -> Result<(), CaseFault> {
    if !out.is_empty() {
        put_word(out, " ")?;
    }
    put_bytes(alloc, out, message)
}
