//! Whether a stock has what chains ask for.
ghost use Rattle.std.specs.Prelude.{◌≡◌, ◌≤◌, ◌<◌, ◌^◌, length, find, nat_lt, option_map, IfOk};
ghost use Rattle.extra_stock.specs.Shortage.{SaysShort, asked, first_short, is_short};
ghost use Rattle.extra_stock.specs.Stocks.{asked_by, is_named, names_weigh, seats_in};

use crate::spares::is_same;
use dns_data::{Copies, Directive, Directives, NoMemory, Text};
use plugin_api::Extra;
use std::alloc::Global;

/// More extras of a name are asked for than the stock has.
#[derive(Debug, Drop)]
pub struct Short {
    pub name: Text,
    pub asked: u64,
    pub had: u64,
}

// How many extras of a name there are.
fn count_spare<E: Extra>(spare: &[E], name: &[u8]) -> usize
    ensures value { result ≡ names_weigh E.title (is_named name.now) spare.now }
{
    let mut count = 0;
    for extra in spare {
        if is_same(extra.name(), name) {
            count += 1;
        }
    }
    count
}

// How many directives of a name a block has.
fn count_in(directives: &[Directive], name: &[u8]) -> usize
    ensures value { result ≡ names_weigh (λ d. d.name) (is_named name.now) directives.now }
    ensures most { result ≤ length directives.now }
{
    let mut count = 0;
    for directive in directives {
        if is_same(directive.name.as_str().as_bytes(), name) {
            count += 1;
        }
    }
    count
}

// How many directives of a name a configuration has.
fn count_all(blocks: &[Directives], name: &[u8]) -> usize
    requires few { seats_in blocks.now < 2 ^ 32 }
    ensures value { result ≡ asked_by (is_named name.now) blocks.now }
    ensures most { result ≤ seats_in blocks.now }
{
    let mut count = 0;
    for block in blocks {
        count += count_in(block.as_slice(), name);
    }
    count
}

// How many extras of a name so many workers ask for.
fn count_asked(workers: u64, blocks: &[Directives], name: &[u8]) -> u64
    requires workers { workers < 2 ^ 32 }
    requires few { seats_in blocks.now < 2 ^ 32 }
    ensures { result ≡ asked workers blocks.now name.now }
{
    workers * count_all(blocks, name) as u64
}

// Whether there are fewer extras of a name than are asked for.
fn is_few<E: Extra>(workers: u64, blocks: &[Directives], spare: &[E], name: &[u8]) -> bool
    requires workers { workers < 2 ^ 32 }
    requires few { seats_in blocks.now < 2 ^ 32 }
    ensures { result ≡ nat_lt (names_weigh E.title (is_named name.now) spare.now)
        (asked workers blocks.now name.now) }
{
    let had = count_spare(spare, name) as u64;
    let asks = count_asked(workers, blocks, name);
    had < asks
}

// Whether there are fewer extras of a directive's name than are asked for.
fn is_short<E: Extra>(
    workers: u64,
    blocks: &[Directives],
    spare: &[E],
    directive: &Directive,
) -> bool
    requires workers { workers < 2 ^ 32 }
    requires few { seats_in blocks.now < 2 ^ 32 }
    ensures { result ≡ is_short workers blocks.now
        (λ n. names_weigh E.title (is_named n) spare.now) directive.now }
{
    let few = is_few(workers, blocks, spare, directive.name.as_str().as_bytes());
    few
}

// The first directive of a block that is short.
fn short_in<'a, E: Extra>(
    workers: u64,
    blocks: &[Directives],
    spare: &[E],
    directives: &'a [Directive],
) -> Option<&'a Directive>
    requires workers { workers < 2 ^ 32 }
    requires few { seats_in blocks.now < 2 ^ 32 }
    ensures { option_map (λ d. d.now) result ≡ find (is_short workers blocks.now
        (λ n. names_weigh E.title (is_named n) spare.now)) directives.now }
{
    for directive in directives {
        if is_short(workers, blocks, spare, directive) {
            return Some(directive);
        }
    }
    None
}

// The first directive of all that is short.
#[tactic(auto, using(crate::specs::ShortageLaws::text_here, crate::specs::ShortageLaws::text_next))]
fn first_short<'a, E: Extra>(
    workers: u64,
    blocks: &'a [Directives],
    spare: &[E],
) -> Option<&'a Directive>
    requires workers { workers < 2 ^ 32 }
    requires few { seats_in blocks.now < 2 ^ 32 }
    ensures { option_map (λ d. d.now) result ≡ first_short workers blocks.now
        (λ n. names_weigh E.title (is_named n) spare.now) }
{
    for block in blocks {
        if let Some(directive) = short_in(workers, blocks, spare, block.as_slice()) {
            return Some(directive);
        }
    }
    None
}

/// The first directive in the order of the text of whose name so many workers ask for more extras
/// than there are, with how many are asked for and how many there are. None: there are enough.
pub fn find_short<E: Extra>(
    alloc: Global,
    workers: u64,
    blocks: &[Directives],
    spare: &[E],
) -> Result<Option<Short>, NoMemory>
    requires workers { workers < 2 ^ 32 }
    requires few { seats_in blocks.now < 2 ^ 32 }
    ensures { IfOk result (SaysShort workers blocks.now
        (λ n. names_weigh E.title (is_named n) spare.now)) }
{
    let Some(directive) = first_short(workers, blocks, spare) else {
        return Ok(None);
    };
    let name = directive.name.copy(alloc)?;
    let asked = count_asked(workers, blocks, name.as_str().as_bytes());
    let had = count_spare(spare, name.as_str().as_bytes()) as u64;
    Ok(Some(Short { name, asked, had }))
}
