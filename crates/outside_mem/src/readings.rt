ghost use Rattle.std.specs.Prelude.{◌≡◌};
ghost use Rattle.outside.specs.Script.{reading};
ghost use Rattle.outside_mem.specs.Feed.{read_on};

/// Numbers that are given in order. The last one is repeated, and without one it is 0. The count of
/// the readings stays at the last value of usize.
#[derive(Drop)]
pub(crate) struct Readings {
    items: Vec<u64>,
    counted: usize,
}

impl Readings {
    pub fn new(items: Vec<u64>) -> Readings
        ensures { result ≡ record { items = items; counted = 0 } }
    {
        Readings { items, counted: 0 }
    }

    /// The next reading.
    pub fn next(&mut self) -> u64
        ensures value { result ≡ reading self.old.items.items self.old.counted }
        ensures used { self.new ≡ read_on self.old }
    {
        let last = self.items.len().saturating_sub(1);
        let index = last.min(self.counted);
        self.counted = self.counted.saturating_add(1);
        match self.items.get(index) {
            Some(item) => *item,
            None => 0,
        }
    }
}
