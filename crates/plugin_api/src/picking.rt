ghost use Rattle.std.specs.Prelude.{◌≡◌, ◌<◌, ◌^◌, length};
ghost use Rattle.dns_data.specs.{is_same};
ghost use Rattle.plugin_api.specs.Picking.{Picks, block_of, has_key, is_key, picked};

use dns_data::{Block, BlockKey, Blocks, Labels, Name};

/// The number of the block that serves the longest zone on a port that the name is within, ASCII
/// case aside; the first, where several serve it.
#[tactic(auto, unfolding(crate::specs::Picking::picked, crate::specs::Picking::longest_of))]
pub fn pick(blocks: &Blocks, port: u16, name: &Name) -> Option<u32>
    requires few { length blocks.now < 2 ^ 32 }
    ensures value { result ≡ picked blocks.now port name.now }
    ensures longest { Picks blocks.now port name.now result }
{
    let mut rest = name.labels();
    loop {
        if let Some(block) = block_of(blocks.as_slice(), port, &rest) {
            return Some(block);
        }
        let Some(_) = rest.next() else {
            return None;
        };
    }
}

#[tactic(auto, unfolding(crate::specs::Picking::block_of))]
fn block_of(blocks: &[Block], port: u16, zone: &Labels<'_>) -> Option<u32>
    requires { length blocks.now < 2 ^ 32 }
    ensures { result ≡ block_of blocks.now port zone.now }
{
    for number in 0..blocks.len() {
        if has_key(&blocks[number], port, zone) {
            return Some(number as u32);
        }
    }
    None
}

#[tactic(auto, unfolding(crate::specs::Picking::has_key))]
fn has_key(block: &Block, port: u16, zone: &Labels<'_>) -> bool
    ensures { result ≡ has_key port zone.now block.now }
{
    for key in block.keys.as_slice() {
        if is_key(key, port, zone) {
            return true;
        }
    }
    false
}

#[tactic(auto, unfolding(crate::specs::Picking::is_key))]
pub(crate) fn is_key(key: &BlockKey, port: u16, zone: &Labels<'_>) -> bool
    ensures { result ≡ is_key port zone.now key.now }
{
    let is_zone = is_same(&key.zone, zone);
    key.port == port && is_zone
}

fn is_same(name: &Name, labels: &Labels<'_>) -> bool
    ensures { result ≡ is_same name.now labels.now }
{
    let name = name.as_wire();
    let labels = labels.as_wire();
    name.eq_ignore_ascii_case(labels)
}
