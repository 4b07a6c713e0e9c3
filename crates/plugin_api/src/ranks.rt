ghost use Rattle.std.specs.Prelude.{◌≡◌, Some, slice_get};
ghost use Rattle.plugin_api.specs.Ranks.{is_once, order_of, ranks};

/// Of what kind a directive is, by its name. A block's chain has its directives in this order, and
/// those of one rank in that of the text.
#[derive(Clone, Copy, Debug, PartialEq, Eq)]
pub enum Rank {
    /// Accepted, and without effect.
    Passive,
    Reload,
    Errors,
    Log,
    Dns64,
    Acl,
    Any,
    /// A directive of the program's own, which no name of the table gives.
    Extra,
    Cache,
    Rewrite,
    Template,
    Hosts,
    File,
    Forward,
    Whoami,
}

impl Rank {
    /// Whether a name of this rank may stand only once in a block.
    pub fn is_once(self) -> bool
        ensures { result ≡ is_once self }
    {
        match self {
            Rank::Acl | Rank::Extra | Rank::Rewrite => false,
            Rank::Template | Rank::File | Rank::Forward => false,
            _ => true,
        }
    }

    /// How many ranks stand before this one in a chain.
    pub fn order(self) -> u8
        ensures value { result ≡ order_of self }
        ensures place { slice_get ranks result ≡ Some self }
    {
        match self {
            Rank::Passive => 0,
            Rank::Reload => 1,
            Rank::Errors => 2,
            Rank::Log => 3,
            Rank::Dns64 => 4,
            Rank::Acl => 5,
            Rank::Any => 6,
            Rank::Extra => 7,
            Rank::Cache => 8,
            Rank::Rewrite => 9,
            Rank::Template => 10,
            Rank::Hosts => 11,
            Rank::File => 12,
            Rank::Forward => 13,
            Rank::Whoami => 14,
        }
    }
}
