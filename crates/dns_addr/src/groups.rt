ghost use Rattle.std.specs.Prelude.{◌≡◌, ◌<◌, ◌+◌, ◌-◌, [], ◌∷◌, ◌++◌, length, replicate, OnSome};
ghost use Rattle.std.specs.Prelude.{IfNone};
ghost use Rattle.dns_addr.specs.AddrText.{v6_number};

use std::marker::Model;

/// At most eight groups of 16 bits of an IPv6 address. Contracts see the list.
#[derive(Drop)]
pub(crate) struct Groups {
    // Zeros stand behind the groups.
    list: [u16; 8],
    count: usize,
}

impl Model for Groups {
    ghost use Rattle.std.specs.Prelude.{◌≡◌, ◌≤◌, ◌-◌, ◌++◌, ℕ, List, take, replicate};

    ghost Value = { List ℕ };

    ghost view = { λ g. take g.count g.list };

    ghost invariant = { λ g. (g.count ≤ 8)
        × (g.list ≡ take g.count g.list ++ replicate (8 - g.count) 0) };
}

impl Groups {
    pub fn new() -> Groups
        ensures { result ≡ [] }
    {
        Groups {
            list: [0; 8],
            count: 0,
        }
    }

    pub fn len(&self) -> usize
        ensures { result ≡ length self.now }
    {
        self.count
    }

    /// Adds a group, unless there are eight.
    pub fn push(&mut self, group: u16) -> Option<()>
        ensures some { OnSome result (self.new ≡ self.old ++ group ∷ []) }
        ensures room { OnSome result (length self.old < 8) }
        ensures none { IfNone result (length self.old ≡ 8) }
    {
        if self.count == 8 {
            return None;
        }
        self.list[self.count] = group;
        self.count += 1;
        Some(())
    }

    /// Becomes eight groups: these, zeros, and the others.
    pub fn fill_up(&mut self, back: &Groups)
        requires { length self.old + length back.now < 8 }
        ensures { self.new
            ≡ self.old ++ (replicate (8 - length self.old - length back.now) 0 ++ back.now) }
    {
        self.list[8 - back.count..].copy_from_slice(&back.list[..back.count]);
        self.count = 8;
    }

    /// The address of eight groups, the first one highest.
    pub fn number(&self) -> u128
        requires { length self.now ≡ 8 }
        ensures { result ≡ v6_number self.now }
    {
        let [a, b, c, d, e, f, g, h] = self.list;
        let high = (u128::from(a) << 48)
            + (u128::from(b) << 32)
            + (u128::from(c) << 16)
            + u128::from(d);
        let low = (u128::from(e) << 48)
            + (u128::from(f) << 32)
            + (u128::from(g) << 16)
            + u128::from(h);
        (high << 64) + low
    }
}
