ghost use Rattle.std.specs.Prelude.{◌≡◌, ◌≤◌, ◌++◌, length, OnOk, OnErr};
ghost use Rattle.stream_wire.specs.{framed};
ghost use Rattle.dns_data.specs.declared.limit.TheConstants as limits;
ghost use Rattle.stream_connection.specs.Connections.{new_connection, with_more, without, is_late};
ghost use Rattle.stream_connection.specs.Connections.{part_since, GivesNext, TakesReply};
ghost use Rattle.stream_connection.specs.Connections.{HasMessage};

use crate::backlog::Backlog;
use crate::bounds::{Bounds, is_past};
use dns_data::{Buffer, NoMemory};
use std::alloc::Global;
use std::marker::Model;
use stream_wire::{Front, first_message};

/// Whether a connection gave a message. Part: there is none whole.
#[derive(Clone, Copy, Debug, PartialEq, Eq)]
pub enum Next {
    Message,
    Part,
    NoMemory,
}

/// Whether a reply waits to go out. Refused: more bytes would wait than may.
#[derive(Clone, Copy, Debug, PartialEq, Eq)]
pub enum Replied {
    Waits,
    Refused,
    NoMemory,
}

/// The bytes of one connection: those that came and belong to no message yet given, and those that
/// wait to go out.
#[derive(Debug, Drop)]
pub struct Connection {
    came: Backlog,
    replies: Backlog,
    // When it was opened, or the last whole message was given, in milliseconds.
    active: u64,
    // Since when there is a part of a message.
    part: Option<u64>,
}

impl Model for Connection {
    ghost use Rattle.stream_connection.specs.Connections.{ConnectionData};

    ghost Value = { ConnectionData };

    ghost view = { λ c. record {
      incoming = c.came;
      waiting = c.replies;
      active = c.active;
      part = c.part;
    } };
}

impl Connection {
    /// A connection that was opened at this time.
    pub fn new(alloc: Global, now: u64) -> Connection
        ensures { result ≡ new_connection now }
    {
        Connection {
            came: Backlog::new(alloc),
            replies: Backlog::new(alloc),
            active: now,
            part: None,
        }
    }

    /// Takes bytes that came.
    pub fn come(&mut self, bytes: &[u8], now: u64) -> Result<(), NoMemory>
        ensures ok { OnOk result (self.new ≡ with_more self.old bytes.now now) }
        ensures err { OnErr result (self.new ≡ self.old) }
    {
        let begins = self.came.as_slice().is_empty();
        self.came.push(bytes)?;
        if begins {
            self.part = Some(now);
        }
        Ok(())
    }

    /// Gives the first message of what came, in place of what the message held, where it is whole.
    pub fn next(&mut self, message: &mut Buffer, now: u64) -> Next
        ensures { GivesNext self.old self.new message.new now result }
    {
        let Front::Whole(first) = first_message(self.came.as_slice()) else {
            return Next::Part;
        };
        let size = first.len();
        message.clear();
        if message.append(first).is_err() {
            return Next::NoMemory;
        }
        self.came.skip(size + 2);
        self.active = now;
        self.part = part_since(self.came.as_slice(), now);
        Next::Message
    }

    /// Whether what came begins with a whole message.
    pub fn has_message(&self) -> bool
        ensures { HasMessage self.now result }
    {
        matches!(first_message(self.came.as_slice()), Front::Whole(_))
    }

    /// Puts a reply behind those that wait, where no more bytes wait then than may.
    pub fn reply(&mut self, bytes: &[u8], most: usize) -> Replied
        requires { length bytes.now ≤ limits.MESSAGE_BYTES }
        ensures { TakesReply self.old self.new bytes.now most result }
    {
        let waiting = self.replies.as_slice().len();
        if most < waiting || most - waiting < bytes.len() + 2 {
            return Replied::Refused;
        }
        match push_frame(&mut self.replies, bytes) {
            Ok(()) => Replied::Waits,
            Err(NoMemory) => Replied::NoMemory,
        }
    }

    /// The bytes that wait to go out.
    pub fn waiting(&self) -> &[u8]
        ensures { result.now ≡ self.now.waiting }
    {
        self.replies.as_slice()
    }

    /// So many of the bytes that waited went out.
    pub fn went(&mut self, count: usize)
        requires { count ≤ length self.old.waiting }
        ensures { self.new ≡ without self.old count }
    {
        self.replies.skip(count);
    }

    /// Gives back memory that was for more bytes than there are.
    pub fn rest(&mut self)
        ensures { self.new ≡ self.old }
    {
        self.came.rest();
        self.replies.rest();
    }

    /// Whether the connection is to be closed, where so many are open: it was without a whole
    /// message, or a message was here in part, for longer than may be.
    pub fn is_late(&self, bounds: &Bounds, count: usize, now: u64) -> bool
        ensures { result ≡ is_late self.now bounds.now count now }
    {
        if is_past(self.active, bounds.idle_for(count), now) {
            return true;
        }
        match self.part {
            Some(since) => is_past(since, bounds.part, now),
            None => false,
        }
    }
}

// Since when a part of a message is here, where these bytes stand behind one that was given.
fn part_since(behind: &[u8], now: u64) -> Option<u64>
    ensures { result ≡ part_since behind.now now }
{
    if behind.is_empty() {
        return None;
    }
    Some(now)
}

// Puts a message behind its length behind the bytes that wait.
fn push_frame(replies: &mut Backlog, bytes: &[u8]) -> Result<(), NoMemory>
    requires { length bytes.now ≤ limits.MESSAGE_BYTES }
    ensures ok { OnOk result (replies.new ≡ replies.old ++ framed bytes.now) }
    ensures err { OnErr result (replies.new ≡ replies.old) }
{
    let size = (bytes.len() as u16).to_be_bytes();
    replies.push_both(&size, bytes)
}
