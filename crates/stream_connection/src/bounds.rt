ghost use Rattle.std.specs.Prelude.{◌≡◌, ◌<◌, ◌↔◌, IsTrue};
ghost use Rattle.stream_connection.specs.Bounds.{idle_for, is_past, usual_bounds};

/// What a side allows its connections. Times are in milliseconds.
#[derive(Clone, Copy, Debug, PartialEq, Eq)]
pub struct Bounds {
    /// How many may be open at once.
    pub connections: usize,
    /// How many bytes of replies may wait for one of them.
    pub waiting: usize,
    /// How long one may be without a whole message.
    pub idle: u64,
    /// The same while more than three quarters of the connections are open.
    pub idle_near: u64,
    /// How long a message may be here in part.
    pub part: u64,
}

impl Bounds {
    /// What the program allows (RFC 7766, sections 6.2.2 and 6.2.3).
    pub fn usual() -> Bounds
        ensures { result ≡ usual_bounds }
    {
        Bounds {
            connections: 1_024,
            waiting: 262_144,
            idle: 30_000,
            idle_near: 5_000,
            part: 10_000,
        }
    }

    /// Whether one more connection may be opened where so many are open.
    pub fn has_room(&self, count: usize) -> bool
        ensures { IsTrue result ↔ (count < self.now.connections) }
    {
        count < self.connections
    }

    /// How long a connection may be without a whole message while so many are open.
    pub fn idle_for(&self, count: usize) -> u64
        ensures { result ≡ idle_for self.now count }
    {
        if self.connections - self.connections / 4 < count {
            return self.idle_near;
        }
        self.idle
    }
}

/// Whether more than so long has passed. Where the clock went back, none has.
pub(crate) fn is_past(since: u64, limit: u64, now: u64) -> bool
    ensures { result ≡ is_past since limit now }
{
    limit < now.saturating_sub(since)
}
