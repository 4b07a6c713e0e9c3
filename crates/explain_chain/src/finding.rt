//! The block that a query is for.
ghost use Rattle.std.specs.Prelude.{◌≡◌, None, MatchOption, option_map, slice_get};
ghost use Rattle.chain_meaning.specs.Serving.{block_of};
ghost use Rattle.plugin_api.specs.{picked};
ghost use Rattle.explain_chain.specs.Finding.{IsFound};

use chain_build::{BlockChain, Plans};
use dns_data::{Block, Query};
use plugin_api::Rulebook;

/// The block that a query is for, its chain, and their number.
pub(crate) fn find_block<'a, B: Rulebook>(
    plans: &'a Plans<B>,
    query: &Query,
) -> Option<(usize, &'a Block, &'a BlockChain)>
    ensures { MatchOption result (block_of plans.now.blocks query.now ≡ None)
        (λ found. IsFound B.said plans.now query.now found.0 found.1.now found.2.now) }
{
    plans.tell();
    let Some(number) = number_of(plans, query) else {
        return None;
    };
    let number = number as usize;
    let Some(block) = block_at(plans, number) else {
        return None;
    };
    let Some(chain) = chain_at(plans, number) else {
        return None;
    };
    Some((number, block, chain))
}

// The number of the block with the longest zone on the port at which a query came.
fn number_of<B: Rulebook>(plans: &Plans<B>, query: &Query) -> Option<u32>
    ensures { result ≡ picked plans.now.blocks query.now.local query.now.name }
{
    plans.index.find(query.local, &query.name)
}

fn block_at<'a, B: Rulebook>(plans: &'a Plans<B>, number: usize) -> Option<&'a Block>
    ensures { option_map (λ block. block.now) result ≡ slice_get plans.now.blocks number }
{
    plans.blocks.as_slice().get(number)
}

fn chain_at<'a, B: Rulebook>(plans: &'a Plans<B>, number: usize) -> Option<&'a BlockChain>
    ensures { option_map (λ chain. chain.now) result ≡ slice_get plans.now.chains number }
{
    plans.chains.as_slice().get(number)
}
