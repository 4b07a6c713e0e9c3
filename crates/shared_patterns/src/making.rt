ghost use Rattle.std.specs.Prelude.{◌≡◌, IfOk, IfSome};
ghost use Rattle.outside.specs.{IsPatternOf, Makes, last_behind, with_refusals};
ghost use Rattle.shared_patterns.specs.Made.{made_of};

use crate::shared::SharedPattern;
use dns_data::{NoMemory, Text};
use outside::{Made, PatternMaker};
use std::alloc::Global;

/// What became of the text of a pattern, as `Made` says it.
#[derive(Debug, Drop)]
pub enum MadeShared {
    Pattern(SharedPattern),
    /// It is no pattern.
    NotPattern,
    /// It is too large to compile.
    Refused,
    NoMemory,
}

/// The pattern of a text: one of those that are there, or else one that the maker makes. Callers
/// see what they would see of the maker.
pub fn make_shared<M: PatternMaker>(
    alloc: Global,
    there: &[&SharedPattern],
    text: &Text,
    maker: &mut M,
) -> MadeShared
    ensures made { Makes text.now (M.state maker.old).refusals (made_of result)
        (M.state maker.new).refusals }
    ensures names { M.last maker.new ≡ last_behind text.now (made_of result) (M.last maker.old) }
    ensures rest { M.state maker.new
        ≡ with_refusals (M.state maker.old) (M.state maker.new).refusals }
{
    match shared_of(alloc, there, text) {
        Ok(Some(shared)) => MadeShared::Pattern(shared),
        Ok(None) => make_new(alloc, text, maker),
        Err(NoMemory) => MadeShared::NoMemory,
    }
}

// One that the maker makes.
fn make_new<M: PatternMaker>(alloc: Global, text: &Text, maker: &mut M) -> MadeShared
    ensures made { Makes text.now (M.state maker.old).refusals (made_of result)
        (M.state maker.new).refusals }
    ensures names { M.last maker.new ≡ last_behind text.now (made_of result) (M.last maker.old) }
    ensures rest { M.state maker.new
        ≡ with_refusals (M.state maker.old) (M.state maker.new).refusals }
{
    match maker.make(alloc, text) {
        Made::Pattern(pattern) => match SharedPattern::new(alloc, text, pattern) {
            Ok(shared) => MadeShared::Pattern(shared),
            Err(NoMemory) => MadeShared::NoMemory,
        },
        Made::NotPattern => MadeShared::NotPattern,
        Made::Refused => MadeShared::Refused,
        Made::NoMemory => MadeShared::NoMemory,
    }
}

// One of those that are there, where it is that of the text.
fn shared_of(
    alloc: Global,
    there: &[&SharedPattern],
    text: &Text,
) -> Result<Option<SharedPattern>, NoMemory>
    ensures { IfOk result (λ found. IfSome found (IsPatternOf text.now)) }
{
    for shared in there {
        if shared.is_of(text) {
            return Ok(Some(shared.share(alloc)?));
        }
    }
    Ok(None)
}
