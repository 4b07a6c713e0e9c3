ghost use Rattle.dns_data.specs.declared.limit.TheConstants as limits;
ghost use Rattle.std.specs.Prelude.{◌≡◌, ◌≤◌, ◌<◌, ◌+◌, ◌*◌, length};
ghost use Rattle.pin_table.specs.{SamePass, pass_of};
ghost use Rattle.query_worker.specs.Pins.{IsReady, IsResting};
ghost use Rattle.query_worker.specs.States.{worker_state};
ghost use Rattle.query_worker.specs.Worker.{TakesTurn, WorksToEnd};

use crate::turn::{Turned, take_turn};
use crate::worker::Worker;
use chain_build::Chain;
use outside::Side;
use pin_table::PinTable;
use plugin_api::{Extra, Rulebook};
use run_meaning::WorkEnd;
use std::alloc::Global;
use std::sync::Wait;

/// Takes turns until one ends the worker, and tells its side, which takes no turn behind that.
pub fn work<R: Wait, S: Side, B: Rulebook, E: Extra>(
    rt: &R,
    alloc: Global,
    worker: &mut Worker<S, B, E>,
    table: &PinTable<Chain<B, E>>,
    most: u64,
) -> WorkEnd
    requires ready { IsReady table.now worker.old }
    requires most { (0 < most) × (most ≤ limits.TURNS) }
    requires stays { (S.state worker.old.side).left ≡ 0 }
    ensures works { WorksToEnd most
        (worker_state S.state worker.old) (worker_state S.state worker.new) result }
    ensures same { SamePass worker.old.pass worker.new.pass }
    ensures rests { IsResting table.now worker.new.pass }
{
    for _ in rt.forever() {
        if let Some(end) = work_once(rt, alloc, worker, table, most) {
            worker.side.leave();
            return end;
        }
    }
    unreachable!()
}

/// Takes a turn, counts it, and says how the worker ended where this was its last turn.
pub fn work_once<R: Wait, S: Side, B: Rulebook, E: Extra>(
    rt: &R,
    alloc: Global,
    worker: &mut Worker<S, B, E>,
    table: &PinTable<Chain<B, E>>,
    most: u64,
) -> Option<WorkEnd>
    requires rests { IsResting table.now worker.old.pass }
    requires pins { length (pass_of worker.old.pass).turns ≡ worker.old.tally.pins }
    requires more { worker.old.tally.pins < most }
    requires most { most ≤ limits.TURNS }
    requires stays { (S.state worker.old.side).left ≡ 0 }
    requires failures { worker.old.tally.failures < limits.FAILURES }
    requires starved { worker.old.tally.starved ≤ 65 * worker.old.tally.pins +
        worker.old.tally.failures }
    ensures takes { TakesTurn most
        (worker_state S.state worker.old) (worker_state S.state worker.new) result }
    ensures same { SamePass worker.old.pass worker.new.pass }
    ensures rests { IsResting table.now worker.new.pass }
{
    match take_turn(
        rt,
        alloc,
        &mut worker.side,
        &mut worker.pass,
        table,
        &mut worker.room,
    ) {
        Turned::Answered(serial) => worker.tally.take(serial, most),
        Turned::Starved(serial) => {
            worker.tally.starved += 1;
            worker.tally.take(serial, most)
        }
        Turned::RecvFailed => worker.tally.miss(),
        Turned::RecvStarved => {
            worker.tally.starved += 1;
            worker.tally.has_starved = true;
            worker.tally.miss()
        }
        Turned::RecvEnd => Some(WorkEnd::End),
    }
}
