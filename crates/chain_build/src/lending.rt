//! The uses of a chain: a part of each pool of its generation, and a use of each cache that is
//! held.
ghost use Rattle.std.specs.Prelude.{◌≡◌, ◌<◌, ◌-◌, ◌++◌, ℕ, [], ◌∷◌, length, map};
ghost use Rattle.std.specs.Prelude.{IfOk, OnOk, OnErr};
ghost use Rattle.std.specs.List.{All};
ghost use Rattle.forward_plugin.specs.PoolParts as pool;
ghost use Rattle.lent_caches.specs.Building.{AreNewUses, CanLendEach};
ghost use Rattle.lent_caches.specs.Held.{AreApart, caches_data, given_all};
ghost use Rattle.lent_caches.specs.Ledger.{AllHeld, lent_each};
ghost use Rattle.chain_build.specs.Compiled.{back_of};
ghost use Rattle.chain_build.specs.Lending.{AreHeldBy, IsNamed, Lends, LendsCache};
ghost use Rattle.chain_build.specs.Lending.{chain_names, lents_in, uses_lents};
ghost use Rattle.chain_build.specs.Pools.{forwards_in};
ghost use Rattle.chain_build.specs.Shares.{AreUncalled, HaveMore, HaveParts};
ghost use Rattle.chain_build.specs.Uses.{ArePooled, AreUsed, chain_pools, chain_named};

use crate::block::BlockChain;
use crate::block_chain::BackAnswerer;
use crate::block_uses::BlockUses;
use dns_data::NoMemory;
use forward_plugin::{ForwardPlan, Pools};
use lent_caches::{Caches, LentCache};
use std::alloc::Global;

// New pools for chains, block by block, with so many parts of each.
pub(crate) fn share_pools(
    alloc: Global,
    chains: &[BlockChain],
    parts: u64,
) -> Result<Vec<Pools>, NoMemory>
    requires { 0 < parts }
    ensures pooled { IfOk result (λ pools. ArePooled chains.now pools.items) }
    ensures parts { IfOk result (λ pools. All (HaveParts parts) pools.items) }
{
    let mut all = Vec::with_capacity(alloc, chains.len())?;
    share_more(alloc, chains, parts, &mut all)?;
    Ok(all)
}

// The same, behind those of others.
fn share_more(
    alloc: Global,
    chains: &[BlockChain],
    parts: u64,
    all: &mut Vec<Pools>,
) -> Result<(), NoMemory>
    requires parts { 0 < parts }
    requires all { All (HaveParts parts) all.old.items }
    ensures pooled { OnOk result (map length all.new.items
        ≡ map length all.old.items ++ map chain_pools chains.now) }
    ensures parts { OnOk result (All (HaveParts parts) all.new.items) }
{
    let Some((chain, rest)) = chains.split_first() else {
        return Ok(());
    };
    let forwards = forwards_of(chain.back.as_slice());
    all.push(Pools::share(alloc, forwards, parts)?)?;
    share_more(alloc, rest, parts, all)
}

// The directives `forward` of a block.
fn forwards_of(back: &[BackAnswerer]) -> &[ForwardPlan]
    ensures { result.now ≡ forwards_in (map back_of back.now) }
{
    let Some((plugin, rest)) = back.split_first() else {
        return &[];
    };
    match plugin {
        BackAnswerer::Forward(plans) => plans.as_slice(),
        _ => forwards_of(rest),
    }
}

// A worker's uses, block by block. Where memory is wanting, all caches are as they were.
pub(crate) fn lend_uses(
    alloc: Global,
    chains: &[BlockChain],
    shared: &mut [Pools],
    caches: &mut Caches,
) -> Result<Vec<BlockUses>, NoMemory>
    requires pooled { ArePooled chains.now shared.old }
    requires more { All HaveMore shared.old }
    requires named { All IsNamed chains.now }
    requires held { AreHeldBy (map chain_named chains.now) (caches_data caches.old) }
    requires can { CanLendEach (chain_names chains.now) (caches_data caches.old) }
    requires apart { AreApart (caches_data caches.old) }
    ensures used { IfOk result (λ uses. AreUsed chains.now uses.items) }
    ensures fresh { IfOk result (λ uses. All AreUncalled uses.items) }
    ensures lent { IfOk result (λ uses. caches_data caches.new
        ≡ lent_each (chain_names chains.now) (caches_data caches.old)) }
    ensures new { IfOk result (λ uses. AreNewUses (chain_names chains.now)
        (caches_data caches.old) (uses_lents uses.items)) }
    ensures fails { OnErr result (caches_data caches.new ≡ caches_data caches.old) }
    ensures pooled { map length shared.new ≡ map length shared.old }
    ensures parts { (parts : ℕ) → All (HaveParts parts) shared.old
        → OnOk result (All (HaveParts (parts - 1)) shared.new) }
{
    let mut all = Vec::with_capacity(alloc, chains.len())?;
    match lend_more(alloc, chains, shared, caches, &mut all) {
        Ok(()) => Ok(all),
        Err(NoMemory) => {
            give_uses(all, caches);
            Err(NoMemory)
        }
    }
}

// The same, behind those of others.
fn lend_more(
    alloc: Global,
    chains: &[BlockChain],
    shared: &mut [Pools],
    caches: &mut Caches,
    all: &mut Vec<BlockUses>,
) -> Result<(), NoMemory>
    requires pooled { ArePooled chains.now shared.old }
    requires more { All HaveMore shared.old }
    requires named { All IsNamed chains.now }
    requires held { AreHeldBy (map chain_named chains.now) (caches_data caches.old) }
    requires can { CanLendEach (chain_names chains.now) (caches_data caches.old) }
    requires apart { AreApart (caches_data caches.old) }
    ensures lends { Lends chains.now (caches_data caches.old) (caches_data caches.new)
        all.old.items all.new.items result }
    ensures pooled { map length shared.new ≡ map length shared.old }
    ensures parts { (parts : ℕ) → All (HaveParts parts) shared.old
        → OnOk result (All (HaveParts (parts - 1)) shared.new) }
{
    let Some((chain, chains)) = chains.split_first() else {
        return Ok(());
    };
    let Some((pools, shared)) = shared.split_first_mut() else {
        unreachable!()
    };
    let pools = pools.split(alloc)?;
    all.reserve(1)?;
    let cache = lend_cache(alloc, chain, caches)?;
    all.push_reserved(BlockUses { pools, cache });
    lend_more(alloc, chains, shared, caches, all)
}

// A use of the cache that serves a chain, where it has one.
fn lend_cache(
    alloc: Global,
    chain: &BlockChain,
    caches: &mut Caches,
) -> Result<Option<LentCache>, NoMemory>
    requires can { CanLendEach (chain_names (chain.now ∷ [])) (caches_data caches.old) }
    requires apart { AreApart (caches_data caches.old) }
    ensures { LendsCache chain.now (caches_data caches.old) (caches_data caches.new) result }
{
    let Some(named) = &chain.named else {
        return Ok(None);
    };
    Ok(Some(caches.lend(alloc, named.name)?))
}

// The uses of a chain are back, in their order. It takes no memory.
pub(crate) fn give_uses(mut uses: Vec<BlockUses>, caches: &mut Caches)
    requires held { AllHeld (uses_lents uses.items) (caches_data caches.old) }
    requires apart { AreApart (caches_data caches.old) }
    ensures { caches_data caches.new ≡ given_all (uses_lents uses.items) (caches_data caches.old) }
{
    uses.reverse();
    while let Some(BlockUses { pools: _, cache }) = uses.pop() {
        give_cache(cache, caches);
    }
}

// The use of a cache is back, where there is one.
fn give_cache(cache: Option<LentCache>, caches: &mut Caches)
    requires held { AllHeld (lents_in cache) (caches_data caches.old) }
    requires apart { AreApart (caches_data caches.old) }
    ensures { caches_data caches.new ≡ given_all (lents_in cache) (caches_data caches.old) }
{
    if let Some(lent) = cache {
        caches.give(lent);
    }
}
