ghost use Rattle.std.specs.Prelude.{◌≡◌};
ghost use Rattle.chain_build.specs.{check_behind};
ghost use Rattle.corefile_blocks.specs.{IsReadable};
ghost use Rattle.plain_chain.specs.Reading.{ReadsPlain};

use chain_build::{AllTaken, BlockChain, CheckFault, ReadBundle, read_bundle};
use corefile_blocks::Bundle;
use dns_data::{Blocks, FileText, Seq};
use outside::PatternMaker;
use std::alloc::Global;

/// What was read of a bundle: its files, its blocks, and the chain of each.
#[derive(Drop)]
pub struct PlainRead<'a> {
    pub files: &'a [FileText],
    pub blocks: Blocks,
    pub chains: Seq<BlockChain>,
}

/// Reads a bundle, for any number of datagrams. Each directive of a name that no plugin has is
/// taken for that of an extra. The maker makes the bundle's patterns.
pub fn plain_read<'a, M: PatternMaker>(
    alloc: Global,
    bundle: &'a Bundle,
    default_port: u16,
    maker: &mut M,
) -> Result<PlainRead<'a>, CheckFault>
    requires { IsReadable bundle.now }
    ensures reads { ReadsPlain bundle.now default_port (M.last maker.new) result }
    ensures maker { M.state maker.new ≡ check_behind result (M.state maker.old) }
{
    let read = read_bundle(alloc, bundle, default_port, &AllTaken, maker)?;
    let ReadBundle { blocks, chains } = read;
    Ok(PlainRead {
        files: bundle.files.as_slice(),
        blocks,
        chains,
    })
}
