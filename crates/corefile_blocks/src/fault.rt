ghost use Rattle.std.specs.Prelude.{◌≡◌};
ghost use Rattle.corefile_blocks.specs.Texts.{why_text};

use corefile_words::WordsFault;
use dns_data::{Limit, NoMemory};

/// Why the lines of a Corefile are no blocks.
#[derive(Clone, Copy, Debug, PartialEq, Eq)]
pub enum BlockWhy {
    /// A header without a key.
    NoKey,
    /// A key with `://` behind another scheme than `dns`.
    Scheme,
    /// A port that is not 1 to 65,535 in one to five digits.
    Port,
    /// A zone that is no name.
    Zone,
    /// A key with `/` that is no address with bits in whole octets (IPv4) or nibbles (IPv6).
    Cidr,
    /// A line in the body of a directive that ends in `{`.
    DeepBrace,
    /// No `}` for a block, a body or a snippet: the line is the one that opened it.
    OpenBlock,
    /// A brace in a place where none can stand.
    StrayBrace,
    /// A line outside of blocks and snippets that is neither one's first nor an import.
    Outside,
    /// A line that begins with `import`, without exactly one word behind it.
    ImportArgs,
    /// A snippet's name that is empty, or was defined before.
    SnippetName,
}

impl BlockWhy {
    /// The word for it, as an operator sees it.
    pub fn text(self) -> &'static str
        ensures { result.now ≡ why_text self }
    {
        match self {
            BlockWhy::NoKey => "nokey",
            BlockWhy::Scheme => "scheme",
            BlockWhy::Port => "port",
            BlockWhy::Zone => "zone",
            BlockWhy::Cidr => "cidr",
            BlockWhy::DeepBrace => "deepbrace",
            BlockWhy::OpenBlock => "openblock",
            BlockWhy::StrayBrace => "straybrace",
            BlockWhy::Outside => "outside",
            BlockWhy::ImportArgs => "importargs",
            BlockWhy::SnippetName => "snippetname",
        }
    }
}

/// Why a bundle has no blocks. Each line is one of the Corefile itself, and counts from 1: what an
/// import brought has the line of that import.
#[derive(Clone, Copy, Debug, PartialEq, Eq)]
pub enum CorefileFault {
    /// Never `WordsFault::NoMemory`.
    Words(WordsFault),
    Block { line: u32, why: BlockWhy },
    /// An import of which there is neither a snippet nor a file.
    NoSnippet { line: u32 },
    /// An import too deep within others.
    ImportLoop { line: u32 },
    /// A key whose zone and port stood before.
    DoubleKey { line: u32 },
    /// The number is the first that is too large.
    TooMany { what: Limit, number: u64 },
    NoMemory,
}

impl From<NoMemory> for CorefileFault {
    ghost use Rattle.std.specs.Prelude.{◌≡◌};
    ghost use Rattle.corefile_blocks.specs.declared.fault.CorefileFault.TheVariants as fault;

    ghost from_gives = { λ _ f. f ≡ fault.NoMemory };

    fn from(_: NoMemory) -> CorefileFault {
        CorefileFault::NoMemory
    }
}
