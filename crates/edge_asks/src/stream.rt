ghost use Rattle.std.specs.Prelude.{◌≤◌, length, None};
ghost use Rattle.dns_data.specs.declared.limit.TheConstants as limits;
ghost use Rattle.edge_sockets.specs.{MovesAtMost};
ghost use Rattle.stream_wire.specs.Streams.{SourceState, SinkState};

use crate::deadline::{Deadline, Waited};
use dns_data::Bytes;
use edge_sockets::{Awaited, Moved, receive_some, send_some};
use outside::Wrote;
use std::alloc::Global;
use std::os::fd::OwnedFd;
use std::time::Clock;
use stream_wire::{ByteSink, ByteSource, Frame, Gave, Taken, read_frame, write_frame};

/// What a message over a connection gave. Unbegun: the connection failed before a byte of the reply
/// came.
#[derive(Debug, Drop)]
pub(crate) enum Talked {
    Got(Bytes),
    Silence,
    Failed,
    Unbegun,
    NoMemory,
}

// A connection, until the time of a try is up. It tells no bytes, and counts its failing calls.
#[derive(Drop)]
struct Stream<'a, C: Clock> {
    clock: &'a C,
    socket: &'a OwnedFd,
    until: Deadline,
    // Whether the time was up.
    late: bool,
    // Whether a byte has come.
    begun: bool,
    faults: u64,
}

impl<C: Clock> Stream<'_, C> {
    // Why nothing was told.
    fn ending(&self) -> Talked {
        if self.late {
            return Talked::Silence;
        }
        if self.begun {
            return Talked::Failed;
        }
        Talked::Unbegun
    }
}

impl<C: Clock> ByteSource for Stream<'_, C> {
    ghost state = { λ s. record { left = None; faults = s.faults } };

    fn take(&mut self, buffer: &mut [u8]) -> Taken {
        match receive_by(self.clock, self.socket, self.until, buffer) {
            Moved::Some(count) => {
                self.begun |= count != 0;
                return Taken::Took(count);
            }
            Moved::Blocked => self.late = true,
            Moved::Failed => {}
        }
        self.faults = self.faults.saturating_add(1);
        Taken::Failed
    }
}

impl<C: Clock> ByteSink for Stream<'_, C> {
    ghost state = { λ s. record { took = None; faults = s.faults } };

    fn give(&mut self, bytes: &[u8]) -> Gave {
        match send_by(self.clock, self.socket, self.until, bytes) {
            Moved::Some(0) | Moved::Failed => {}
            Moved::Some(count) => return Gave::Gave(count),
            Moved::Blocked => self.late = true,
        }
        self.faults = self.faults.saturating_add(1);
        Gave::Failed
    }
}

// The next bytes that come. Blocked: the time is up.
fn receive_by(clock: &impl Clock, socket: &OwnedFd, until: Deadline, buffer: &mut [u8]) -> Moved
    ensures { MovesAtMost (length buffer.new) result }
{
    for _ in 0..u64::MAX {
        match until.wait(clock, socket, Awaited::Bytes) {
            Waited::Ready => {}
            Waited::Late => return Moved::Blocked,
            Waited::Failed => return Moved::Failed,
        }
        match receive_some(socket, buffer) {
            Moved::Blocked => {}
            moved => return moved,
        }
    }
    Moved::Blocked
}

// Sends bytes, once some go out. Blocked: the time is up.
fn send_by(clock: &impl Clock, socket: &OwnedFd, until: Deadline, bytes: &[u8]) -> Moved
    ensures { MovesAtMost (length bytes.now) result }
{
    for _ in 0..u64::MAX {
        match send_some(socket, bytes) {
            Moved::Blocked => {}
            moved => return moved,
        }
        match until.wait(clock, socket, Awaited::Room) {
            Waited::Ready => {}
            Waited::Late => return Moved::Blocked,
            Waited::Failed => return Moved::Failed,
        }
    }
    Moved::Blocked
}

/// Sends a message over a connection, and waits for the next one that comes.
pub(crate) fn talk<C: Clock>(
    clock: &C,
    alloc: Global,
    socket: &OwnedFd,
    until: Deadline,
    message: &[u8],
) -> Talked
    requires { length message.now ≤ limits.MESSAGE_BYTES }
{
    let mut stream = Stream {
        clock,
        socket,
        until,
        late: false,
        begun: false,
        faults: 0,
    };
    if write_frame(&mut stream, message) == Wrote::Failed {
        return stream.ending();
    }
    match read_frame(alloc, &mut stream) {
        Frame::Got(bytes) => Talked::Got(bytes),
        Frame::NoMemory => Talked::NoMemory,
        Frame::End | Frame::Torn { .. } | Frame::Failed => stream.ending(),
    }
}
