ghost use Rattle.std.specs.Prelude.{◌≡◌, ◌≤◌, ◌+◌, ◌++◌, [], length, take, drop, OnOk, OnErr};

use dns_data::NoMemory;
use std::alloc::Global;
use std::marker::Model;

// Memory of this many bytes stays with a backlog at rest; more is given back, so that a connection
// which once had much to say costs little when it is idle.
const KEPT: usize = 512;

// Memory of this many bytes stays with a backlog that is empty for a moment.
const KEPT_BUSY: usize = 65_536;

// So many bytes of memory are made room at once, at most.
const AHEAD: usize = 16_384;

/// Bytes in order: more come at the end, and the first go. Before their memory doubles, the bytes
/// move to its front where more than half have gone.
#[derive(Debug, Drop)]
pub struct Backlog {
    // The bytes stand from `gone` to `end`, and whatever is behind is room.
    room: Vec<u8>,
    gone: usize,
    end: usize,
}

impl Model for Backlog {
    ghost use Rattle.std.specs.Prelude.{ℕ, List, ◌≤◌, drop, take, vec_len};

    ghost Value = { List ℕ };

    ghost view = { λ b. drop b.gone (take b.end b.room.items) };

    ghost invariant = { λ b. (b.gone ≤ b.end) × (b.end ≤ vec_len b.room) };
}

impl Backlog {
    pub fn new(alloc: Global) -> Backlog
        ensures { result ≡ [] }
    {
        Backlog {
            room: Vec::new(alloc),
            gone: 0,
            end: 0,
        }
    }

    #[inline]
    pub fn as_slice(&self) -> &[u8]
        ensures { result.now ≡ self.now }
    {
        &self.room[self.gone..self.end]
    }

    pub fn push(&mut self, more: &[u8]) -> Result<(), NoMemory>
        ensures ok { OnOk result (self.new ≡ self.old ++ more.now) }
        ensures err { OnErr result (self.new ≡ self.old) }
    {
        if self.room.len() - self.end < more.len() {
            return self.push_far(&[], more);
        }
        put(self.room.as_mut_slice(), self.end, more);
        self.end += more.len();
        Ok(())
    }

    /// Pushes two pieces, or neither.
    #[inline(always)]
    pub fn push_both(&mut self, first: &[u8], second: &[u8]) -> Result<(), NoMemory>
        ensures ok { OnOk result (self.new ≡ self.old ++ (first.now ++ second.now)) }
        ensures err { OnErr result (self.new ≡ self.old) }
    {
        let left = self.room.len() - self.end;
        if left < first.len() || left - first.len() < second.len() {
            return self.push_far(first, second);
        }
        put_both(self.room.as_mut_slice(), self.end, first, second);
        self.end += first.len() + second.len();
        Ok(())
    }

    /// Lets so many of the first bytes go.
    #[inline]
    pub fn skip(&mut self, count: usize)
        requires { count ≤ length self.old }
        ensures { self.new ≡ drop count self.old }
    {
        self.gone += count;
        if self.gone == self.end {
            self.gone = 0;
            self.end = 0;
            if self.room.len() > KEPT_BUSY {
                self.room.truncate(KEPT_BUSY);
                self.room.shrink_to(KEPT_BUSY);
            }
        }
    }

    /// Gives memory back, where there are no bytes.
    pub fn rest(&mut self)
        ensures { self.new ≡ self.old }
    {
        if self.end == 0 {
            self.room.truncate(KEPT);
            self.room.shrink_to(KEPT);
        }
    }

    // Pushes two pieces, or neither, where there is no room for both.
    #[cold]
    #[inline(never)]
    fn push_far(&mut self, first: &[u8], second: &[u8]) -> Result<(), NoMemory>
        ensures ok { OnOk result (self.new ≡ self.old ++ (first.now ++ second.now)) }
        ensures err { OnErr result (self.new ≡ self.old) }
    {
        if self.gone > self.end / 2 {
            self.close_up();
        }
        self.room.truncate(self.end);
        self.room.extend_from_slice(first)?;
        self.room.extend_from_slice(second)?;
        self.end = self.room.len();
        let ahead = self.end.saturating_add(AHEAD).min(self.room.capacity());
        let _ = self.room.resize(ahead.max(self.end), 0);
        Ok(())
    }

    // Moves the bytes to the front of their memory.
    fn close_up(&mut self)
        ensures { self.new ≡ self.old }
    {
        let left = self.end - self.gone;
        self.room.truncate(self.end);
        self.room.rotate_left(self.gone);
        self.room.truncate(left);
        self.gone = 0;
        self.end = left;
    }
}

// Puts bytes behind the first so many of these.
#[inline(always)]
fn put(room: &mut [u8], end: usize, bytes: &[u8])
    requires { end + length bytes.now ≤ length room.old }
    ensures bytes { take (end + length bytes.now) room.new ≡ take end room.old ++ bytes.now }
    ensures len { length room.new ≡ length room.old }
{
    room[end..end + bytes.len()].copy_from_slice(bytes);
}

// Puts two pieces behind the first so many of these.
#[inline(always)]
fn put_both(room: &mut [u8], end: usize, first: &[u8], second: &[u8])
    requires { end + (length first.now + length second.now) ≤ length room.old }
    ensures bytes { take (end + (length first.now + length second.now)) room.new
        ≡ take end room.old ++ (first.now ++ second.now) }
    ensures len { length room.new ≡ length room.old }
{
    put(room, end, first);
    put(room, end + first.len(), second);
}
