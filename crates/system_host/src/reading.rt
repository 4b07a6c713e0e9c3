ghost use Rattle.std.specs.Prelude.{◌≤◌, IfOk, IfSome, vec_len};

use dns_data::limit::READ_BYTES;
use edge_sockets::Why;
use std::alloc::Global;
use std::fs::{File, OpenFile};
use std::io::{ErrorKind, Read};
use std::rt::Files;
use std::{fs, io};

/// Why a file wasn't read.
#[derive(Clone, Copy, Debug, PartialEq, Eq)]
pub enum Unread {
    Missing,
    NoMemory,
    Failed(Why),
}

/// The first bytes of a regular file, as many as `READ_BYTES`. What is no regular file isn't
/// opened: a pipe's other end might never come. One that takes a file's place between the look and
/// the opening is seen behind it.
pub fn read_regular(files: &impl Files, alloc: Global, name: &str) -> Result<Vec<u8>, Unread>
    ensures { IfOk result (λ v. vec_len v ≤ READ_BYTES) }
{
    match fs::metadata(files, name) {
        Ok(found) if !found.is_file() => return Err(Unread::Failed(Why::NotRegular)),
        Ok(_) => {}
        Err(fault) => return Err(read_fault(&fault)),
    }
    match read_limited(files, alloc, name) {
        Ok(Some(bytes)) => Ok(bytes),
        Ok(None) => Err(Unread::Failed(Why::NotRegular)),
        Err(fault) => Err(read_fault(&fault)),
    }
}

fn read_limited(files: &impl Files, alloc: Global, name: &str) -> io::Result<Option<Vec<u8>>>
    ensures { IfOk result (λ r. IfSome r (λ v. vec_len v ≤ READ_BYTES)) }
{
    let file = File::open(files, name)?;
    if !file.metadata()?.is_file() {
        return Ok(None);
    }
    let mut bytes = Vec::new(alloc);
    file.take(READ_BYTES as u64).read_to_end(&mut bytes)?;
    bytes.truncate(READ_BYTES);
    Ok(Some(bytes))
}

fn read_fault(fault: &io::Error) -> Unread {
    match fault.kind() {
        ErrorKind::NotFound => Unread::Missing,
        ErrorKind::OutOfMemory => Unread::NoMemory,
        _ => Unread::Failed(Why::of_error(fault)),
    }
}
