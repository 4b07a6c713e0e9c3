ghost use Rattle.std.specs.Prelude.{◌≡◌, ◌<◌, ◌^◌, [], false, IfOk, length};
ghost use Rattle.std.specs.Prelude.{option_and_then, option_map, slice_get};
ghost use Rattle.plugin_api.specs.{Sayings, picked};
ghost use Rattle.chain_build.specs.Plans.{steps_in};
ghost use Rattle.chain_meaning.specs.{steps_of};
ghost use Rattle.chain_meaning.specs.Serving.{block_of, chain_decides, query_decides};
ghost use Rattle.plain_marks.specs.{Means};
ghost use Rattle.plain_chain.specs.Reading.{IsWhole, asks_extra, has_extra};

use crate::asking::Asking;
use crate::meant::bare;
use crate::reading::PlainRead;
use crate::rulings::NoRulings;
use crate::tracing::trace_chain;
use chain_build::{BlockChain, is_known_version};
use chain_meaning::Decision;
use chain_trail::Trail;
use dns_data::{NoMemory, Opt, Query, class, rcode};
use outside::Mark;
use plain_marks::Meant;
use plugin_api::pick;
use std::alloc::Global;

/// What is decided for a query with this OPT record and class by what was read of a bundle.
pub(crate) fn decide<'a>(
    alloc: Global,
    read: &PlainRead<'_>,
    opt: Option<Opt>,
    class: u16,
    query: &Query,
    marks: &'a [Mark],
) -> Result<Meant<'a, Decision>, NoMemory>
    requires whole { IsWhole read.now }
    requires own { asks_extra opt class read.now.blocks query.now ≡ false }
    ensures { (said : Sayings) → IfOk result (Means (query_decides opt class
        (steps_of said read.now.files.now) read.now.blocks query.now) marks.now) }
{
    if !is_known_version(opt) {
        return Ok(bare(alloc, rcode::NOERROR, marks));
    }
    if class != class::IN {
        return Ok(bare(alloc, rcode::REFUSED, marks));
    }
    let Some(chain) = chain_for(read, query) else {
        return Ok(bare(alloc, rcode::REFUSED, marks));
    };
    decide_by(alloc, chain, query, marks)
}

/// Whether a query with this OPT record and class is for a block, and that has an extra's
/// directive.
pub(crate) fn asks_extra(read: &PlainRead<'_>, opt: Option<Opt>, class: u16, query: &Query) -> bool
    requires { IsWhole read.now }
    ensures { result ≡ asks_extra opt class read.now.blocks query.now }
{
    is_known_version(opt) && class == class::IN && has_extra(read, query)
}

// Whether the block with the longest zone on the port at which a query came has one.
fn has_extra(read: &PlainRead<'_>, query: &Query) -> bool
    requires { IsWhole read.now }
    ensures { result ≡ has_extra (block_of read.now.blocks query.now) }
{
    match chain_for(read, query) {
        Some(chain) => 0 < chain.extras.len(),
        None => false,
    }
}

// The chain of the block with the longest zone on the port at which the query came.
fn chain_for<'a>(read: &'a PlainRead<'_>, query: &Query) -> Option<&'a BlockChain>
    requires few { length read.now.blocks < 2 ^ 32 }
    ensures { option_map (λ chain. chain.now) result
        ≡ option_and_then (slice_get read.now.chains)
        (picked read.now.blocks query.now.local query.now.name) }
{
    let number = pick(&read.blocks, query.local, &query.name)?;
    read.chains.as_slice().get(number as usize)
}

// What the chain of a block without extras decides.
fn decide_by<'a>(
    alloc: Global,
    chain: &BlockChain,
    query: &Query,
    marks: &'a [Mark],
) -> Result<Meant<'a, Decision>, NoMemory>
    requires { chain.now.extras ≡ [] }
    ensures { (said : Sayings)
        → IfOk result (Means (chain_decides (steps_in said chain.now) query.now) marks.now) }
{
    let asking = Asking {
        alloc,
        chain,
        query,
    };
    let mut trail = Trail::new(alloc);
    trace_chain(asking, &mut NoRulings, &[], marks, &mut trail)
}
