//! Whether blocks are to be looked at again, and how often.
ghost use Rattle.std.specs.Prelude.{◌≡◌};
ghost use Rattle.run_meaning.specs.Reloads.{has_reload, is_reload, reloads, times_in, times_of};

use dns_data::{Block, Directive};
use plain_plugins::{ReloadTimes, reload_times};
use plugin_api::{Rank, rank};

pub(crate) fn reloads(blocks: &[Block]) -> bool
    ensures { result ≡ reloads blocks.now }
{
    blocks
        .iter()
        .any(|block| has_reload(block.directives.as_slice()))
}

// Whether one of these directives is `reload`.
fn has_reload(directives: &[Directive]) -> bool
    ensures { result ≡ has_reload directives.now }
{
    directives.iter().any(|directive| is_reload(directive))
}

fn is_reload(directive: &Directive) -> bool
    ensures { result ≡ is_reload directive.now }
{
    match rank(&directive.name) {
        Some(Rank::Reload) => true,
        _ => false,
    }
}

/// The times of the first `reload` of the blocks, in the order of the text.
pub(crate) fn times_of(blocks: &[Block]) -> ReloadTimes
    ensures { result ≡ times_of blocks.now }
{
    let mut rest = blocks;
    while let Some((block, behind)) = rest.split_first() {
        if let Some(times) = times_in(block.directives.as_slice()) {
            return times;
        }
        rest = behind;
    }
    reload_times(&[])
}

// The times of the first `reload` of a block.
fn times_in(directives: &[Directive]) -> Option<ReloadTimes>
    ensures { result ≡ times_in directives.now }
{
    let mut rest = directives;
    while let Some((directive, behind)) = rest.split_first() {
        if is_reload(directive) {
            return Some(reload_times(directive.args.as_slice()));
        }
        rest = behind;
    }
    None
}
