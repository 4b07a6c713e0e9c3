//! The key by which a block is picked.

ghost use Rattle.std.specs.Prelude.{◌≡◌, find, is_some, option_map};
ghost use Rattle.dns_data.specs.{is_same};
ghost use Rattle.plugin_api.specs.Picking.{is_key, picked};
ghost use Rattle.chain_trail.specs.Names.{key_line, picked_line};

use dns_data::{Block, BlockKey, Blocks, Labels, Name};

/// The line of the key by which the block is picked that serves a name on a port: the first with
/// the longest zone on that port that the name is within, ASCII case aside. None
/// exactly where no block is picked.
#[tactic(auto, unfolding(plugin_api::specs::Picking::longest_of))]
pub fn picked_line(blocks: &Blocks, port: u16, name: &Name) -> Option<u32>
    ensures value { result ≡ picked_line blocks.now port name.now }
    ensures picked { is_some result ≡ is_some (picked blocks.now port name.now) }
{
    let mut rest = name.labels();
    loop {
        if let Some(line) = key_line(blocks.as_slice(), port, &rest) {
            return Some(line);
        }
        let Some(_) = rest.next() else {
            return None;
        };
    }
}

// That of the first key with this port and this zone.
fn key_line(blocks: &[Block], port: u16, zone: &Labels<'_>) -> Option<u32>
    ensures { result ≡ key_line blocks.now port zone.now }
{
    let (block, rest) = blocks.split_first()?;
    match line_in(block.keys.as_slice(), port, zone) {
        Some(line) => Some(line),
        None => key_line(rest, port, zone),
    }
}

// That of the first of a block's keys.
fn line_in(keys: &[BlockKey], port: u16, zone: &Labels<'_>) -> Option<u32>
    ensures { result ≡ option_map (λ key. key.line) (find (is_key port zone.now) keys.now) }
{
    let (key, rest) = keys.split_first()?;
    if is_key(key, port, zone) {
        return Some(key.line);
    }
    line_in(rest, port, zone)
}

#[tactic(auto, unfolding(plugin_api::specs::Picking::is_key))]
fn is_key(key: &BlockKey, port: u16, zone: &Labels<'_>) -> bool
    ensures { result ≡ is_key port zone.now key.now }
{
    let is_zone = is_same(&key.zone, zone);
    key.port == port && is_zone
}

fn is_same(name: &Name, labels: &Labels<'_>) -> bool
    ensures { result ≡ is_same name.now labels.now }
{
    let name = name.as_wire();
    let labels = labels.as_wire();
    name.eq_ignore_ascii_case(labels)
}
