//! Whether a side's journal is that of a worker.
ghost use Rattle.std.specs.Prelude.{◌≡◌, ◌<◌, ◌∷◌, IfOk};
ghost use Rattle.audit_run.specs.Walking.{EndsSo, JudgesSide, StepsSo, TellsPlace, has_ended};
ghost use Rattle.audit_run.specs.Walking.{may_begin, may_take};
ghost use Rattle.audit_run.specs.Walks.{GoesSomehow, row_limit};
ghost use Rattle.audit_run.specs.WorkerRuns.{TellsWorker};

use crate::turn_meaning::TurnMeaning;
use crate::turning::take_turn;
use crate::walk::{SideFault, Step, Stepped, Walk};
use dns_data::NoMemory;
use dns_data::limit::FAILURES;
use outside::Mark;
use run_meaning::WorkEnd;
use std::alloc::Global;

/// Judges a side's journal: whether it is that of a worker which took at most so many datagrams and
/// ended so.
pub fn judge_side<M: TurnMeaning>(
    alloc: Global,
    meaning: &M,
    marks: &[Mark],
    end: WorkEnd,
    most: u64,
) -> Result<(), SideFault>
    ensures judges { JudgesSide (M.serves meaning.now) most end marks.now result }
    ensures place { TellsPlace (M.serves meaning.now) most end marks.now result }
    ensures tells { TellsWorker (M.serves meaning.now) most end marks.now result }
{
    walk_along(alloc, meaning, marks, end, most)
}

fn walk_along<M: TurnMeaning>(
    alloc: Global,
    meaning: &M,
    marks: &[Mark],
    end: WorkEnd,
    most: u64,
) -> Result<(), SideFault>
    ensures { JudgesSide (M.serves meaning.now) most end marks.now result }
{
    if !may_begin(end, most) {
        return Err(SideFault::Mark(0));
    }
    let mut walk = Walk {
        taken: 0,
        row: 0,
        last: 0,
    };
    let mut rest = marks;
    while let Some((first, behind)) = rest.split_first() {
        match step(alloc, meaning, &mut walk, end, most, (first, behind)) {
            Ok(Stepped::Goes(more)) => rest = more,
            Ok(Stepped::Fails(at)) => {
                return Err(SideFault::Mark(marks.len() - rest.len() + at));
            }
            Ok(Stepped::Ends) => return Ok(()),
            Err(_) => return Err(SideFault::NoMemory),
        }
    }
    if has_ended(&walk, end, most) {
        return Ok(());
    }
    Err(SideFault::Mark(marks.len()))
}

// One turn, or the end. The marks are the first one and those behind it.
fn step<'a, M: TurnMeaning>(
    alloc: Global,
    meaning: &M,
    walk: &mut Walk,
    end: WorkEnd,
    most: u64,
    marks: (&'a Mark, &'a [Mark]),
) -> Result<Stepped<'a>, NoMemory>
    requires { GoesSomehow (M.serves meaning.now) most end walk.old }
    ensures { IfOk result (λ stepped. StepsSo (M.serves meaning.now) most end walk.old
        (marks.entry.0.now ∷ marks.entry.1.now) walk.new stepped) }
{
    let (first, behind) = marks;
    if most <= walk.taken {
        return Ok(Stepped::Fails(0));
    }
    if FAILURES <= walk.row {
        return Ok(Stepped::Fails(0));
    }
    match first {
        Mark::RecvFailed => {
            if row_limit(end) <= walk.row {
                return Ok(Stepped::Fails(0));
            }
            walk.row += 1;
            Ok(Stepped::Goes(behind))
        }
        Mark::RecvEnd => Ok(ended(end, behind)),
        Mark::Got(datagram) => {
            if !may_take(walk, end, most) {
                return Ok(Stepped::Fails(0));
            }
            if meaning.count() <= walk.last {
                return Ok(Stepped::Fails(0));
            }
            match take_turn(alloc, meaning, walk, datagram, behind)? {
                Step::Goes(serial, more) => {
                    walk.taken += 1;
                    walk.row = 0;
                    walk.last = serial;
                    Ok(Stepped::Goes(more))
                }
                Step::Fails(at) => Ok(Stepped::Fails(at)),
            }
        }
        _ => Ok(Stepped::Fails(0)),
    }
}

// Whether a worker may end so at all.
fn may_begin(end: WorkEnd, most: u64) -> bool
    ensures { result ≡ may_begin most end }
{
    match end {
        WorkEnd::End => true,
        WorkEnd::RecvFailed | WorkEnd::NoMemory => 0 < most,
    }
}

// Whether a worker that ends so may take a datagram there.
fn may_take(walk: &Walk, end: WorkEnd, most: u64) -> bool
    requires { walk.now.taken < most }
    ensures { result ≡ may_take most end walk.now }
{
    match end {
        WorkEnd::End => walk.taken < most,
        WorkEnd::RecvFailed | WorkEnd::NoMemory => walk.taken + 1 < most,
    }
}

// So many receives in a row may give no datagram.
fn row_limit(end: WorkEnd) -> u64
    ensures { result ≡ row_limit end }
{
    match end {
        WorkEnd::RecvFailed => FAILURES,
        WorkEnd::End | WorkEnd::NoMemory => FAILURES - 1,
    }
}

// The mark of the side's end, by the marks behind it.
fn ended<'a>(end: WorkEnd, behind: &'a [Mark]) -> Stepped<'a>
    ensures { EndsSo end behind.now result }
{
    match end {
        WorkEnd::End => {
            if behind.is_empty() {
                return Stepped::Ends;
            }
            Stepped::Fails(1)
        }
        WorkEnd::RecvFailed | WorkEnd::NoMemory => Stepped::Fails(0),
    }
}

// Whether a worker that ended so ended behind its last mark.
fn has_ended(walk: &Walk, end: WorkEnd, most: u64) -> bool
    ensures { result ≡ has_ended most end walk.now }
{
    match end {
        WorkEnd::End => walk.row < FAILURES && walk.taken == most,
        WorkEnd::RecvFailed => walk.row == FAILURES,
        WorkEnd::NoMemory => walk.row < FAILURES && walk.taken < most,
    }
}
