ghost use Rattle.std.specs.Prelude.{◌≤◌};

/// A pool of so many upstreams, of which so many failed tries in a row leave one out (0: none is).
#[derive(Clone, Copy, Debug)]
pub struct PoolRule {
    pub size: u32,
    pub most: u32,
    ghost few: { size ≤ 15 },
}
