use crate::{PinReply, PinState, PinStep};
use std::process::Abort;
use std::test::Fail;

const fn fill(slot: u32, worker: u32) -> PinStep {
    PinStep::Fill { slot, worker }
}

const fn publish(slot: u32) -> PinStep {
    PinStep::Publish { slot }
}

const fn pin(worker: u32) -> PinStep {
    PinStep::Pin { worker }
}

const fn unpin(worker: u32) -> PinStep {
    PinStep::Unpin { worker }
}

const fn sweep(slot: u32) -> PinStep {
    PinStep::Sweep { slot }
}

const fn drain(slot: u32, worker: u32) -> PinStep {
    PinStep::Drain { slot, worker }
}

const fn pinned(slot: u32, serial: u64) -> PinReply {
    PinReply::Pinned { slot, serial }
}

const fn not_yet(ended: u64, total: u64) -> PinReply {
    PinReply::NotYet { ended, total }
}

const DONE: PinReply = PinReply::Done;

const READY: PinReply = PinReply::Ready;

const UNLAWFUL: PinReply = PinReply::Unlawful;

fn replies<A: Abort>(rt: &A, state: &mut PinState, rows: &[(PinStep, PinReply)]) {
    for (step, reply) in rows {
        assert_eq!(rt; state.step(*step), *reply, "{step:?}");
    }
}

#[test]
fn a_slot_is_drained_only_after_a_sweep_saw_its_last_pin_ended(
    rt: HostRuntime,
) -> Result<(), Fail> {
    let mut state = PinState::new(rt.alloc(), 1)?;
    replies(
        &rt,
        &mut state,
        &[
            (fill(0, 0), DONE),
            (publish(0), DONE),
            (pin(0), pinned(0, 0)),
            (fill(1, 0), DONE),
            (publish(1), DONE),
            (drain(0, 0), UNLAWFUL),
            (sweep(0), not_yet(0, 1)),
            (drain(0, 0), UNLAWFUL),
            (unpin(0), DONE),
            (drain(0, 0), UNLAWFUL),
            (sweep(0), READY),
            (drain(0, 0), DONE),
            (drain(0, 0), UNLAWFUL),
        ],
    );
    Ok(())
}

#[test]
fn a_slot_is_free_again_after_the_last_workers_drain(rt: HostRuntime) -> Result<(), Fail> {
    let mut state = PinState::new(rt.alloc(), 2)?;
    replies(
        &rt,
        &mut state,
        &[
            (fill(0, 0), DONE),
            (fill(0, 1), DONE),
            (publish(0), DONE),
            (fill(1, 0), DONE),
            (fill(1, 1), DONE),
            (publish(1), DONE),
            (sweep(0), READY),
            (drain(0, 1), DONE),
            (fill(0, 1), UNLAWFUL),
        ],
    );
    replies(
        &rt,
        &mut state,
        &[
            (drain(0, 1), UNLAWFUL),
            (drain(0, 0), DONE),
            (sweep(0), UNLAWFUL),
        ],
    );
    replies(&rt, &mut state, &[(fill(0, 1), DONE)]);
    Ok(())
}

#[test]
fn the_counts_of_a_slot_go_on_where_it_is_used_again(rt: HostRuntime) -> Result<(), Fail> {
    let mut state = PinState::new(rt.alloc(), 1)?;
    replies(
        &rt,
        &mut state,
        &[
            (fill(0, 0), DONE),
            (publish(0), DONE),
            (pin(0), pinned(0, 0)),
            (unpin(0), DONE),
            (fill(1, 0), DONE),
            (publish(1), DONE),
            (sweep(0), READY),
            (drain(0, 0), DONE),
            (fill(0, 0), DONE),
            (publish(0), DONE),
            (pin(0), pinned(0, 2)),
            (fill(2, 0), DONE),
            (publish(2), DONE),
            (sweep(0), not_yet(1, 2)),
            (unpin(0), DONE),
            (sweep(0), READY),
        ],
    );
    Ok(())
}

#[test]
fn a_step_that_no_row_allows_is_unlawful(rt: HostRuntime) -> Result<(), Fail> {
    let mut state = PinState::new(rt.alloc(), 2)?;
    replies(
        &rt,
        &mut state,
        &[
            (pin(0), UNLAWFUL),
            (unpin(0), UNLAWFUL),
            (publish(0), UNLAWFUL),
            (sweep(0), UNLAWFUL),
            (drain(0, 0), UNLAWFUL),
            (fill(4, 0), UNLAWFUL),
            (fill(0, 2), UNLAWFUL),
            (fill(u32::MAX, u32::MAX), UNLAWFUL),
            (fill(0, 1), DONE),
            (fill(0, 1), UNLAWFUL),
            (publish(0), UNLAWFUL),
            (fill(0, 0), DONE),
            (publish(4), UNLAWFUL),
            (publish(0), DONE),
            (publish(0), UNLAWFUL),
            (fill(0, 0), UNLAWFUL),
            (sweep(0), UNLAWFUL),
            (drain(0, 0), UNLAWFUL),
            (pin(2), UNLAWFUL),
            (pin(0), pinned(0, 0)),
            (pin(0), UNLAWFUL),
            (unpin(1), UNLAWFUL),
            (unpin(2), UNLAWFUL),
            (sweep(4), UNLAWFUL),
            (drain(4, 0), UNLAWFUL),
            (drain(0, 2), UNLAWFUL),
        ],
    );
    Ok(())
}

#[test]
fn a_worker_that_is_held_keeps_its_generation(rt: HostRuntime) -> Result<(), Fail> {
    let mut state = PinState::new(rt.alloc(), 2)?;
    assert_eq!(rt; state.current_slot(), None);
    replies(
        &rt,
        &mut state,
        &[
            (fill(0, 0), DONE),
            (fill(0, 1), DONE),
            (publish(0), DONE),
            (pin(0), pinned(0, 0)),
            (fill(1, 0), DONE),
            (fill(1, 1), DONE),
            (publish(1), DONE),
            (pin(1), pinned(1, 1)),
            (unpin(1), DONE),
            (sweep(0), not_yet(0, 1)),
            (unpin(0), DONE),
            (sweep(0), READY),
            (drain(0, 0), DONE),
            (drain(0, 1), DONE),
            (sweep(0), UNLAWFUL),
        ],
    );
    assert_eq!(rt; state.current_slot(), Some(1));
    assert_eq!(rt; state.published(), 2);
    Ok(())
}

#[test]
fn three_held_workers_leave_no_slot_for_a_fifth_generation(rt: HostRuntime) -> Result<(), Fail> {
    let mut state = PinState::new(rt.alloc(), 3)?;
    for slot in 0..4_u32 {
        for worker in 0..3 {
            replies(&rt, &mut state, &[(fill(slot, worker), DONE)]);
        }
        replies(&rt, &mut state, &[(publish(slot), DONE)]);
        if slot < 3 {
            replies(&rt, &mut state, &[(pin(slot), pinned(slot, slot.into()))]);
        }
    }
    replies(
        &rt,
        &mut state,
        &[
            (sweep(0), not_yet(0, 1)),
            (sweep(1), not_yet(0, 1)),
            (sweep(2), not_yet(0, 1)),
            (unpin(0), DONE),
            (sweep(0), READY),
            (drain(0, 0), DONE),
            (drain(0, 1), DONE),
            (drain(0, 2), DONE),
            (fill(0, 0), DONE),
            (fill(0, 1), DONE),
            (fill(0, 2), DONE),
            (publish(0), DONE),
            (pin(0), pinned(0, 4)),
        ],
    );
    Ok(())
}
