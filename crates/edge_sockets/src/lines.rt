//! What every line for the operator goes through.
ghost use Rattle.std.specs.Prelude.{◌≤◌, length};

use libc::types::pollfd;
use libc::{STDERR_FILENO, net as c};
use std::str;

// A pipe that says it has room takes as many bytes at once (Linux's pipe(7)).
const PIECE: usize = 4_096;

/// Writes a line to standard error, and says whether it went out. It never waits: a pipe that is
/// full takes no line, and may take a part of one that is longer than it has room for.
pub fn note_line(_rt: &impl Eprint, line: &[u8]) -> bool {
    let mut piece = [0u8; PIECE];
    if line.len() < PIECE {
        piece[..line.len()].copy_from_slice(line);
        piece[line.len()] = b'\n';
        return put(&piece[..line.len() + 1]);
    }
    let mut rest = line;
    while rest.len() > PIECE {
        let (first, behind) = rest.split_at(PIECE);
        if !put(first) {
            return false;
        }
        rest = behind;
    }
    put(rest) && put(b"\n")
}

// Writes a piece, where standard error takes it at once.
fn put(piece: &[u8]) -> bool
    requires { length piece.now ≤ PIECE }
{
    let mut asked = [pollfd {
        fd: STDERR_FILENO,
        events: c::POLLOUT,
        revents: 0,
    }];
    // POLLERR beside it: nobody reads the pipe any more.
    if c::poll(&mut asked, 0) != 1 || asked[0].revents != c::POLLOUT {
        return false;
    }
    libc::write(STDERR_FILENO, piece) == piece.len() as isize
}

/// Writes a line to standard output, and says whether it went out.
pub fn tell_line(rt: &impl Print, line: &[u8]) -> bool {
    match str::from_utf8(line) {
        Ok(text) => rt.println(text).is_ok(),
        Err(_) => false,
    }
}
