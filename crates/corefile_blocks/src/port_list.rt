ghost use Rattle.std.specs.Prelude.{◌≡◌, ◌++◌, map, IfOk, OnOk};
ghost use Rattle.corefile_blocks.specs.Ports.{ArePorts, key_ports};

use dns_data::{Block, BlockKey, Blocks, NoMemory};
use std::alloc::Global;

/// The ports of the keys of blocks, each once, the lowest first.
pub fn ports(alloc: Global, blocks: &Blocks) -> Result<Vec<u16>, NoMemory>
    ensures { IfOk result (λ ports. ArePorts blocks.now ports.items) }
{
    let mut ports = key_ports(alloc, blocks.as_slice())?;
    ports.sort()?;
    ports.dedup();
    Ok(ports)
}

// The ports of the keys, in order and each as often as it stands.
fn key_ports(alloc: Global, blocks: &[Block]) -> Result<Vec<u16>, NoMemory>
    ensures { IfOk result (λ ports. ports.items ≡ key_ports blocks.now) }
{
    let mut ports = Vec::new(alloc);
    let mut rest = blocks;
    while let Some((block, behind)) = rest.split_first() {
        add_ports(&mut ports, block.keys.as_slice())?;
        rest = behind;
    }
    Ok(ports)
}

// Adds the ports of these keys.
fn add_ports(ports: &mut Vec<u16>, keys: &[BlockKey]) -> Result<(), NoMemory>
    ensures { OnOk result (ports.new.items ≡ ports.old.items ++ map (λ key. key.port) keys.now) }
{
    let mut rest = keys;
    while let Some((key, behind)) = rest.split_first() {
        ports.push(key.port)?;
        rest = behind;
    }
    Ok(())
}
