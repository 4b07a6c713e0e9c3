ghost use Rattle.std.specs.Prelude.{◌<◌};
ghost use Rattle.pin_soak.specs.Keepers.{IsKeeping};
ghost use Rattle.pin_soak.specs.Workers.{IsIdle};

use crate::chains::Chain;
use crate::keeper::{Keeper, renew};
use crate::soaking::{Done, Role, close_all, opened, parts_of};
use crate::worker::{Worker, give, next_worker, take};
use pin_table::{FreeSlot, Left, PinTable, Swept};
use std::alloc::Global;
use std::test::Fail;

fn sweep(table: &PinTable<Chain>, keeper: &mut Keeper, slot: u32) -> Option<Swept>
    requires keeping { IsKeeping table.now keeper.old }
    requires slot { slot < 4 }
    ensures { IsKeeping table.now keeper.new }
{
    if keeper.workers > 32 || !keeper.home.is_empty() || keeper.home.capacity() < 128 {
        return None;
    }
    let swept = table.sweep(&mut keeper.publisher, slot, &mut keeper.home);
    keeper.ledger.enter_all(&mut keeper.home);
    Some(swept)
}

fn free_slot(table: &PinTable<Chain>, keeper: &mut Keeper) -> Option<FreeSlot>
    requires { IsKeeping table.now keeper.old }
    ensures { IsKeeping table.now keeper.new }
{
    if keeper.workers > 32 || !keeper.home.is_empty() || keeper.home.capacity() < 128 {
        return None;
    }
    let found = table.free_slot(&mut keeper.publisher, &mut keeper.home);
    keeper.ledger.enter_all(&mut keeper.home);
    Some(found)
}

fn meet(table: &PinTable<Chain>, keeper: &mut Keeper, worker: &mut Worker)
    requires keeping { IsKeeping table.now keeper.old }
    requires idle { IsIdle table.now worker.old }
    ensures keeping { IsKeeping table.now keeper.new }
    ensures idle { IsIdle table.now worker.new }
{
    let told = table.told(&mut keeper.publisher);
    table.meet(&mut worker.pass, told);
}

/// The serials that two workers pin around a publication, and three sweeps of the first slot: while
/// the first worker holds its pin, after it, and once more.
fn two_workers(alloc: Global) -> Option<([u64; 2], [Swept; 3])> {
    let (table, mut keeper, mut passes) = opened(alloc, 2, 2)?;
    let mut two = next_worker(&table, &mut passes)?;
    let mut one = next_worker(&table, &mut passes)?;
    let old = take(&table, &mut one)?;
    if !renew(&table, &mut keeper, alloc).ok()? {
        return None;
    }
    let new = take(&table, &mut two)?;
    let serials = [old.serial, new.serial];
    give(&table, &mut two, new);
    let held = sweep(&table, &mut keeper, 0)?;
    give(&table, &mut one, old);
    let home = sweep(&table, &mut keeper, 0)?;
    let after = sweep(&table, &mut keeper, 0)?;
    Some((serials, [held, home, after]))
}

#[test]
fn a_generation_is_retired_once_after_its_last_pin(rt: HostRuntime) -> Result<(), Fail> {
    let (serials, sweeps) = two_workers(rt.alloc()).expect(&rt, "no memory");
    assert_eq!(rt; serials, [0, 1]);
    let not_yet = Swept::NotYet { ended: 0, total: 1 };
    assert_eq!(rt; sweeps, [not_yet, Swept::Retired, Swept::Bare]);
    Ok(())
}

/// The search for a free slot while three workers hold pins on the generations 0, 1 and 2 and 3 is
/// the current one, and once the first one's pin has ended; and the serial that is pinned after a
/// further publication.
fn three_workers(alloc: Global) -> Option<(FreeSlot, FreeSlot, u64)> {
    let (table, mut keeper, mut passes) = opened(alloc, 3, 5)?;
    let mut three = next_worker(&table, &mut passes)?;
    let mut two = next_worker(&table, &mut passes)?;
    let mut one = next_worker(&table, &mut passes)?;
    let first = take(&table, &mut one)?;
    let _ = renew(&table, &mut keeper, alloc).ok()?;
    let _second = take(&table, &mut two)?;
    let _ = renew(&table, &mut keeper, alloc).ok()?;
    let _third = take(&table, &mut three)?;
    let _ = renew(&table, &mut keeper, alloc).ok()?;
    let pinned = free_slot(&table, &mut keeper)?;
    give(&table, &mut one, first);
    let freed = free_slot(&table, &mut keeper)?;
    let _ = renew(&table, &mut keeper, alloc).ok()?;
    let next = take(&table, &mut one)?;
    Some((pinned, freed, next.serial))
}

#[test]
fn three_held_workers_leave_no_slot_for_a_fifth_generation(rt: HostRuntime) -> Result<(), Fail> {
    let (pinned, freed, serial) = three_workers(rt.alloc()).expect(&rt, "no memory");
    let [zero, one, two] = [0, 1, 2].map(|slot| Left {
        slot,
        ended: 0,
        total: 1,
    });
    assert_eq!(rt; pinned, FreeSlot::AllPinned(zero, one, two));
    assert_eq!(rt; freed, FreeSlot::Free(0));
    assert_eq!(rt; serial, 4);
    Ok(())
}

/// What two workers did, of whom one was told of the second generation.
fn one_is_told(alloc: Global) -> Option<Done> {
    let (table, mut keeper, mut passes) = opened(alloc, 2, 2)?;
    let two = next_worker(&table, &mut passes)?;
    let mut one = next_worker(&table, &mut passes)?;
    let _ = renew(&table, &mut keeper, alloc).ok()?;
    meet(&table, &mut keeper, &mut one);
    let mut roles = Vec::new(alloc);
    roles.push(Role::Keep(keeper)).ok()?;
    roles.push(Role::Work(two)).ok()?;
    roles.push(Role::Work(one)).ok()?;
    let (passes, keeper, faults) = parts_of(alloc, &table, roles)?;
    close_all(table, keeper, passes, faults)
}

#[test]
fn what_was_told_is_seen(rt: HostRuntime) -> Result<(), Fail> {
    let done = one_is_told(rt.alloc()).expect(&rt, "no memory");
    assert_eq!(rt; done.published, 2);
    assert_eq!(rt; done.seen, 1);
    assert_eq!(rt; done.home, 4);
    Ok(())
}
