ghost use Rattle.std.specs.Prelude.{◌≡◌, ◌<◌, ◌^◌, None, Some, Ok, Err, map, IfOk, IsTrue};
ghost use Rattle.std.specs.List.{All};
ghost use Rattle.plugin_api.specs.{Obey, Sayings};
ghost use Rattle.extra_stock.specs.{seats_in};
ghost use Rattle.chain_meaning.specs.{brought_of, ground_at};
ghost use Rattle.chain_meaning.specs.Grounds.{terms_by};
ghost use Rattle.chain_build.specs.Plans.{AreKeyed, extras_in};
ghost use Rattle.corefile_blocks.specs.{IsReadable, ReadsBlocks};
ghost use Rattle.corefile_blocks.specs.Readable.{HasShortBytes};
ghost use Rattle.chain_build.specs.Chains.{MakesBlock, MakesBlocks, MakesPlans};
ghost use Rattle.chain_build.specs.Chains.{ReadsBundle};
ghost use Rattle.chain_build.specs.Reading.{check_behind};

use crate::block::BlockChain;
use crate::compiling::compile;
use crate::earlier::{Earlier, Sources};
use crate::fault::CheckFault;
use crate::judges::{Bench, Judges};
use crate::places::read_block;
use crate::plans::Plans;
use chain_meaning::Refusal;
use corefile_blocks::{Bundle, CorefileFault, ports, read_blocks};
use dns_data::{Block, Blocks, Bytes, Directives, NoMemory, Seq, Strings};
use outside::PatternMaker;
use plugin_api::{BlockIndex, Extra, Rulebook};
use std::alloc::Global;
use std::marker::PhantomData;

/// What a bundle serves by, or its first refusal. The judges are an extra of each name that the
/// program brings, and the maker makes the bundle's patterns.
pub fn check<B: Rulebook, E: Extra, M: PatternMaker>(
    alloc: Global,
    bundle: Bundle,
    default_port: u16,
    judges: &[E],
    maker: &mut M,
) -> Result<Plans<B>, CheckFault>
    requires readable { IsReadable bundle }
    requires judges { Obey B.taken B.said E.title E.takes E.ruling judges.now }
    ensures plans { MakesPlans B.taken B.said bundle
        (ground_at default_port (map E.title judges.now)) (M.last maker.new) result }
    ensures maker { M.state maker.new ≡ check_behind result (M.state maker.old) }
{
    check_over(
        alloc,
        &Earlier::none(alloc),
        bundle,
        default_port,
        judges,
        maker,
    )
}

/// The same where plans are there that were made before. What these read of equal bytes or made of
/// equal texts is shared, and not read or made again.
pub fn recheck<B: Rulebook, E: Extra, M: PatternMaker>(
    alloc: Global,
    last: &Plans<B>,
    bundle: Bundle,
    default_port: u16,
    judges: &[E],
    maker: &mut M,
) -> Result<Plans<B>, CheckFault>
    requires readable { IsReadable bundle }
    requires judges { Obey B.taken B.said E.title E.takes E.ruling judges.now }
    ensures plans { MakesPlans B.taken B.said bundle
        (ground_at default_port (map E.title judges.now)) (M.last maker.new) result }
    ensures maker { M.state maker.new ≡ check_behind result (M.state maker.old) }
{
    let earlier = Earlier::of(alloc, last.chains.as_slice())?;
    check_over(alloc, &earlier, bundle, default_port, judges, maker)
}

// The same behind plans of another configuration.
fn check_over<B: Rulebook, E: Extra, M: PatternMaker>(
    alloc: Global,
    earlier: &Earlier<'_>,
    bundle: Bundle,
    default_port: u16,
    judges: &[E],
    maker: &mut M,
) -> Result<Plans<B>, CheckFault>
    requires readable { IsReadable bundle }
    requires judges { Obey B.taken B.said E.title E.takes E.ruling judges.now }
    ensures plans { MakesPlans B.taken B.said bundle
        (ground_at default_port (map E.title judges.now)) (M.last maker.new) result }
    ensures maker { M.state maker.new ≡ check_behind result (M.state maker.old) }
{
    let bench: Bench<'_, B, E> = Bench {
        judges,
        of: PhantomData,
    };
    let read = reread_bundle(alloc, earlier, &bundle, default_port, &bench, maker)?;
    let ReadBundle { blocks, chains } = read;
    // A block without a key, which no header gives, has no room.
    if !are_keyed(blocks.as_slice()) {
        return Err(CheckFault::NoMemory);
    }
    let names = names_of(alloc, judges)?;
    let extras = extras_of(alloc, chains.as_slice())?;
    let index = BlockIndex::new(alloc, &blocks)?;
    let ports = Seq::of(ports(alloc, &blocks)?);
    Ok(Plans {
        bundle,
        default_port,
        names,
        blocks,
        index,
        chains,
        extras,
        ports,
        of: PhantomData,
    })
}

// Whether each block has a key.
fn are_keyed(blocks: &[Block]) -> bool
    ensures { IsTrue result → AreKeyed blocks.now }
{
    let Some((block, rest)) = blocks.split_first() else {
        return true;
    };
    0 < block.keys.len() && are_keyed(rest)
}

// The names of judges.
fn names_of<E: Extra>(alloc: Global, judges: &[E]) -> Result<Strings, NoMemory>
    ensures { IfOk result (λ names. names ≡ map E.title judges.now) }
{
    let mut names = Seq::with_capacity(alloc, judges.len())?;
    for judge in judges {
        names.push(Bytes::from_slice(alloc, judge.name())?)?;
    }
    Ok(names)
}

// The directives of extras in chains. More of them than can be counted have no room.
fn extras_of(alloc: Global, chains: &[BlockChain]) -> Result<Seq<Directives>, NoMemory>
    ensures extras { IfOk result (λ extras. extras ≡ map extras_in chains.now) }
    ensures few { IfOk result (λ extras. seats_in extras < 2 ^ 32) }
{
    let mut extras = Seq::with_capacity(alloc, chains.len())?;
    let mut count: usize = 0;
    for chain in chains {
        let Some(sum) = count.checked_add(chain.extras.len()) else {
            return Err(NoMemory);
        };
        if u32::MAX as usize <= sum {
            return Err(NoMemory);
        }
        count = sum;
        extras.push(chain.extras.copy(alloc)?)?;
    }
    Ok(extras)
}

/// What was read of a bundle: its blocks, and the chain of each.
#[derive(Drop)]
pub struct ReadBundle {
    pub blocks: Blocks,
    pub chains: Seq<BlockChain>,
}

/// Reads a bundle, or gives its first refusal. The maker makes its patterns.
pub fn read_bundle<J: Judges, M: PatternMaker>(
    alloc: Global,
    bundle: &Bundle,
    default_port: u16,
    judges: &J,
    maker: &mut M,
) -> Result<ReadBundle, CheckFault>
    requires { IsReadable bundle.now }
    ensures reads { (said : Sayings) → ReadsBundle bundle.now
        (terms_by default_port (brought_of (J.named judges.now) (J.taken judges.now)) said)
        (M.last maker.new) result }
    ensures maker { M.state maker.new ≡ check_behind result (M.state maker.old) }
{
    reread_bundle(
        alloc,
        &Earlier::none(alloc),
        bundle,
        default_port,
        judges,
        maker,
    )
}

// The same behind plans of another configuration.
fn reread_bundle<J: Judges, M: PatternMaker>(
    alloc: Global,
    earlier: &Earlier<'_>,
    bundle: &Bundle,
    default_port: u16,
    judges: &J,
    maker: &mut M,
) -> Result<ReadBundle, CheckFault>
    requires { IsReadable bundle.now }
    ensures reads { (said : Sayings) → ReadsBundle bundle.now
        (terms_by default_port (brought_of (J.named judges.now) (J.taken judges.now)) said)
        (M.last maker.new) result }
    ensures maker { M.state maker.new ≡ check_behind result (M.state maker.old) }
{
    let blocks = match read_blocks(alloc, bundle, default_port) {
        Ok(blocks) => blocks,
        Err(fault) => match fault {
            CorefileFault::NoMemory => return Err(CheckFault::NoMemory),
            _ => return Err(CheckFault::Refused(Refusal::Corefile(fault))),
        },
    };
    // So many blocks have no room, and are never read.
    if u32::MAX as usize <= blocks.len() {
        return Err(CheckFault::NoMemory);
    }
    let sources = Sources {
        files: bundle.files.as_slice(),
        earlier,
    };
    let chains = block_chains(alloc, judges, &sources, blocks.as_slice(), maker)?;
    Ok(ReadBundle { blocks, chains })
}

// The chains of blocks in a bundle with these files, or the first refusal of a directive.
fn block_chains<J: Judges, M: PatternMaker>(
    alloc: Global,
    judges: &J,
    sources: &Sources<'_>,
    blocks: &[Block],
    maker: &mut M,
) -> Result<Seq<BlockChain>, CheckFault>
    requires { All HasShortBytes sources.now.files.now }
    ensures made { MakesBlocks (brought_of (J.named judges.now) (J.taken judges.now))
        sources.now.files.now blocks.now (M.last maker.new) result }
    ensures maker { M.state maker.new ≡ check_behind result (M.state maker.old) }
{
    let mut chains = Seq::with_capacity(alloc, blocks.len())?;
    let mut patterns = 0;
    let mut rest = blocks;
    while let Some((block, behind)) = rest.split_first() {
        let made = block_chain(alloc, judges, patterns, sources, block, maker)?;
        chains.push(made.chain)?;
        patterns = made.patterns;
        rest = behind;
    }
    Ok(chains)
}

/// What a block makes: its chain, and how many patterns of the configuration stand behind it.
#[derive(Drop)]
pub(crate) struct Made {
    pub chain: BlockChain,
    pub patterns: usize,
}

// The chain of a block, behind so many patterns.
fn block_chain<J: Judges, M: PatternMaker>(
    alloc: Global,
    judges: &J,
    patterns: usize,
    sources: &Sources<'_>,
    block: &Block,
    maker: &mut M,
) -> Result<Made, CheckFault>
    requires { All HasShortBytes sources.now.files.now }
    ensures made { MakesBlock (brought_of (J.named judges.now) (J.taken judges.now)) patterns
        sources.now.files.now block.now (M.last maker.new) result }
    ensures maker { M.state maker.new ≡ check_behind result (M.state maker.old) }
{
    let places = read_block(alloc, judges, patterns, sources, block, maker)?;
    let patterns = places.patterns;
    let chain = compile(alloc, places)?;
    Ok(Made { chain, patterns })
}
