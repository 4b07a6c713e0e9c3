//! Which cache serves a block: that of the block of the generation before which reads the same, or
//! a new one.
ghost use Rattle.std.specs.Prelude.{◌≡◌, ◌<◌, ◌+◌, ◌^◌, length, map, IfOk, OnOk, Some, None};
ghost use Rattle.std.specs.List.{All};
ghost use Rattle.block_readings.specs.Behind.{block_behind};
ghost use Rattle.block_readings.specs.Readings.{block_reading};
ghost use Rattle.corefile_blocks.specs.Readable.{HasShortBytes};
ghost use Rattle.lent_caches.specs.Held.{AreApart, caches_data};
ghost use Rattle.lent_caches.specs.Made.{IsMade};
ghost use Rattle.lent_caches.specs.Named.{named_data};
ghost use Rattle.chain_build.specs.Lending.{IsNamed};
ghost use Rattle.chain_build.specs.Naming.{AbsentFrom, AddsCaches, BeginsCache, FindsSame};
ghost use Rattle.chain_build.specs.Naming.{IsCachedAs, IsNone, IsOfPlans, NamesChain};
ghost use Rattle.chain_build.specs.Naming.{NamesChains, NamesPlans, Precedes, SameChain, change};
ghost use Rattle.chain_build.specs.Naming.{SameChains, SamePlans, name_at};
ghost use Rattle.chain_build.specs.Plans.{behind_of, block_cache, cache_in};
ghost use Rattle.chain_build.specs.Uses.{chain_named};

use crate::block::BlockChain;
use crate::plans::Plans;
use block_readings::{BlockIn, read_the_same};
use cache_rules::CachePlan;
use dns_data::{Block, FileText, FileTexts, NoMemory, Seq};
use lent_caches::{BlockJudge, CacheName, Caches, NamedCache};
use plugin_api::Rulebook;
use seeded_hash::Seed;
use std::alloc::Global;
use std::snapshot::Snapshot;

/// The blocks of a generation with their chains. All are empty where there is none.
#[derive(Clone, Copy, Drop)]
pub struct Generation<'a> {
    pub files: &'a [FileText],
    pub blocks: &'a [Block],
    pub chains: &'a [BlockChain],
}

impl Generation<'static> {
    /// That before the first one.
    pub fn none() -> Generation<'static>
        ensures { IsNone result }
    {
        Generation {
            files: &[],
            blocks: &[],
            chains: &[],
        }
    }
}

impl<B: Rulebook> Plans<B> {
    /// What serves by these plans.
    pub fn generation(&self) -> Generation<'_>
        ensures { IsOfPlans self.now result }
    {
        Generation {
            files: self.bundle.files.as_slice(),
            blocks: self.blocks.as_slice(),
            chains: self.chains.as_slice(),
        }
    }
}

/// What the caches of a generation are named by.
#[derive(Drop)]
pub struct Naming<'a> {
    pub alloc: Global,
    /// The serial of the generation.
    pub serial: u64,
    /// The generation before.
    pub before: Generation<'a>,
    /// With which new caches hash, which clients can't know.
    pub seed: Seed,
}

/// Gives each block that has a cache the one that serves it: that of the block of the generation
/// before which reads the same, and a new one where none does. Where memory is wanting some new
/// caches may be held, of which no use is out.
pub fn name_caches<B: Rulebook>(
    naming: &Naming<'_>,
    plans: Plans<B>,
    caches: &mut Caches,
) -> Result<Plans<B>, NoMemory>
    requires last { Precedes naming.now.before (caches_data caches.old) }
    requires absent { AbsentFrom naming.now.serial 0 (caches_data caches.old) }
    requires apart { AreApart (caches_data caches.old) }
    ensures same { IfOk result (SamePlans plans) }
    ensures adds { AddsCaches naming.now.serial 0 (caches_data caches.old)
        (caches_data caches.new) }
    ensures named { IfOk result (NamesPlans naming.now
        (change (caches_data caches.old) (caches_data caches.new))) }
{
    plans.tell();
    let Plans {
        bundle,
        default_port,
        names,
        blocks,
        index,
        chains,
        extras,
        ports,
        of,
    } = plans;
    let mut chains = in_room(naming.alloc, chains)?;
    let named = name_chains(
        naming,
        &bundle.files,
        blocks.as_slice(),
        0,
        chains.as_mut_slice(),
        caches,
    );
    named?;
    Ok(Plans {
        bundle,
        default_port,
        names,
        blocks,
        index,
        chains: Seq::of(chains),
        extras,
        ports,
        of,
    })
}

// The chains in a vector.
fn in_room(alloc: Global, chains: Seq<BlockChain>) -> Result<Vec<BlockChain>, NoMemory>
    ensures { IfOk result (λ moved. moved.items ≡ chains) }
{
    let mut chains = chains;
    let mut moved = Vec::with_capacity(alloc, chains.len())?;
    while let Some(chain) = chains.pop() {
        moved.push(chain)?;
    }
    moved.reverse();
    Ok(moved)
}

// Gives the chains of blocks their caches, from this block on.
fn name_chains(
    naming: &Naming<'_>,
    files: &FileTexts,
    blocks: &[Block],
    at: u64,
    chains: &mut [BlockChain],
    caches: &mut Caches,
) -> Result<(), NoMemory>
    requires short { All HasShortBytes files.now }
    requires last { Precedes naming.now.before (caches_data caches.old) }
    requires cached { map cache_in chains.old ≡ map block_cache blocks.now }
    requires behind { map behind_of chains.old ≡ map (block_behind files.now) blocks.now }
    requires few { at + length blocks.now < 2 ^ 64 }
    requires absent { AbsentFrom naming.now.serial at (caches_data caches.old) }
    requires apart { AreApart (caches_data caches.old) }
    ensures same { SameChains chains.old chains.new }
    ensures adds { AddsCaches naming.now.serial at (caches_data caches.old)
        (caches_data caches.new) }
    ensures named { OnOk result (NamesChains naming.now at
        (map (block_reading files.now) blocks.now) chains.new
        (change (caches_data caches.old) (caches_data caches.new))) }
{
    let Some((chain, chains)) = chains.split_first_mut() else {
        return Ok(());
    };
    let Some((block, blocks)) = blocks.split_first() else {
        unreachable!()
    };
    let to_name = ToName { files, block, at };
    name_chain(naming, &to_name, chain, caches)?;
    name_chains(naming, files, blocks, at + 1, chains, caches)
}

// Which block is to be named: one of a bundle with these files, and its number.
#[derive(Drop)]
struct ToName<'a> {
    files: &'a FileTexts,
    block: &'a Block,
    at: u64,
}

// Gives the chain of a block its cache, where it has one.
fn name_chain(
    naming: &Naming<'_>,
    to_name: &ToName<'_>,
    chain: &mut BlockChain,
    caches: &mut Caches,
) -> Result<(), NoMemory>
    requires short { All HasShortBytes to_name.now.files.now }
    requires last { Precedes naming.now.before (caches_data caches.old) }
    requires cached { cache_in chain.old ≡ block_cache to_name.now.block.now }
    requires behind { behind_of chain.old
        ≡ block_behind to_name.now.files.now to_name.now.block.now }
    requires absent { AbsentFrom naming.now.serial to_name.now.at (caches_data caches.old) }
    requires apart { AreApart (caches_data caches.old) }
    ensures same { SameChain chain.old chain.new }
    ensures adds { AddsCaches naming.now.serial to_name.now.at (caches_data caches.old)
        (caches_data caches.new) }
    ensures named { OnOk result (NamesChain naming.now to_name.now.at
        (block_reading to_name.now.files.now to_name.now.block.now) chain.new
        (change (caches_data caches.old) (caches_data caches.new))) }
{
    let Some(plan) = &chain.cache else {
        chain.named = None;
        return Ok(());
    };
    let here = BlockIn {
        files: to_name.files.as_slice(),
        block: to_name.block,
    };
    let before = naming.before;
    let kept = find_same(before.files, before.blocks, before.chains, here)?;
    let named = match kept {
        Some(named) => named,
        None => new_cache(naming, to_name, plan, caches)?,
    };
    chain.named = Some(named);
    Ok(())
}

// The cache of a block, among these with their chains, that reads the same as this one, which has
// a cache.
fn find_same(
    files: &[FileText],
    blocks: &[Block],
    chains: &[BlockChain],
    here: BlockIn<'_>,
) -> Result<Option<NamedCache>, NoMemory>
    requires others { All HasShortBytes files.now }
    requires short { All HasShortBytes here.files.now }
    requires named { All IsNamed chains.now }
    requires caches { map cache_in chains.now ≡ map block_cache blocks.now }
    requires cached { IsCachedAs (block_reading here.files.now here.block.now) }
    ensures { IfOk result (FindsSame (map (block_reading files.now) blocks.now)
        (map chain_named chains.now)
        (block_reading here.entry.files.now here.entry.block.now)) }
{
    let Some((block, blocks)) = blocks.split_first() else {
        return Ok(None);
    };
    let Some((chain, chains)) = chains.split_first() else {
        unreachable!()
    };
    if let Some(named) = &chain.named {
        if read_the_same(BlockIn { files, block }, here) {
            return Ok(Some(named.again()?));
        }
    }
    find_same(files, blocks, chains, here)
}

// A new cache of a block's directive.
fn new_cache(
    naming: &Naming<'_>,
    to_name: &ToName<'_>,
    plan: &CachePlan,
    caches: &mut Caches,
) -> Result<NamedCache, NoMemory>
    requires plan { block_cache to_name.now.block.now ≡ Some plan.now }
    requires absent { AbsentFrom naming.now.serial to_name.now.at (caches_data caches.old) }
    requires apart { AreApart (caches_data caches.old) }
    ensures adds { AddsCaches naming.now.serial to_name.now.at (caches_data caches.old)
        (caches_data caches.new) }
    ensures begins { IfOk result (λ named. BeginsCache
        (name_at naming.now.serial to_name.now.at)
        (block_reading to_name.now.files.now to_name.now.block.now) (named_data named)
        (caches_data caches.old) (caches_data caches.new)) }
{
    let name = CacheName {
        serial: naming.serial,
        block: to_name.at,
    };
    let judge = BlockJudge {
        files: Snapshot::of(to_name.files),
        block: Snapshot::of(to_name.block),
    };
    caches.make(naming.alloc, name, plan, judge, naming.seed)?;
    caches.which(name)
}
