use dns_data::{Addr, Block, Blocks, Copies, Name, NoMemory, RecordRoom, Seq};
use std::alloc::Global;
use std::test::Fail;

#[test]
fn blocks_are_copied(rt: HostRuntime) -> Result<(), Fail> {
    let mut blocks: Blocks = Seq::new(rt.alloc());
    blocks.push(block(rt.alloc()))?;
    assert_eq!(rt; blocks.copy(rt.alloc())?.len(), 1);
    Ok(())
}

fn block(alloc: Global) -> Block {
    Block {
        keys: Seq::new(alloc),
        directives: Seq::new(alloc),
    }
}

#[test]
fn a_room_is_filled_again(rt: HostRuntime) -> Result<(), Fail> {
    let mut room = RecordRoom::new(rt.alloc());
    fill(rt.alloc(), &mut room)?;
    room.clear();
    fill(rt.alloc(), &mut room)?;
    assert_eq!(rt; room.to_records(rt.alloc())?.len(), 2);
    Ok(())
}

// Adds an address and a port.
fn fill(alloc: Global, room: &mut RecordRoom) -> Result<(), NoMemory> {
    let owner = Name::root(alloc);
    room.push_address(alloc, &owner, 5, Addr::V6(1))?;
    room.push_service(alloc, b"_udp", &owner, 0, 53)
}
