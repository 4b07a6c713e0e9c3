//! A turn of a side's journal, by what its datagram means.
ghost use Rattle.std.specs.Prelude.{◌≡◌, ◌<◌, ℕ, IfOk, MatchOption};
ghost use Rattle.outside.specs.declared.mark.Mark.TheVariants.{Pinned};
ghost use Rattle.audit_run.specs.Walking.{MayTake, PinsSo, TurnsSo, reply_in};

use crate::turn_meaning::{TurnMeaning, TurnMeans};
use crate::walk::{Step, Tail, Walk};
use crate::walking::{own_count, tail_of};
use dns_data::{Buffer, NoMemory};
use outside::{Datagram, Mark};
use std::alloc::Global;

/// The turn that took a datagram, by the marks behind it.
pub(crate) fn take_turn<'a, M: TurnMeaning>(
    alloc: Global,
    meaning: &M,
    walk: &Walk,
    datagram: &Datagram,
    marks: &'a [Mark],
) -> Result<Step<'a>, NoMemory>
    requires { walk.now.last < M.published meaning.now }
    ensures { IfOk result (λ step. (most : ℕ) (end : _) → MayTake most end walk.now walk.now.last
        → TurnsSo (M.serves meaning.now) most end walk.now datagram.now marks.now step) }
{
    let Some((first, behind)) = marks.split_first() else {
        return Ok(Step::Fails(1));
    };
    let Some(serial) = pinned(first) else {
        return Ok(Step::Fails(1));
    };
    if serial < walk.last {
        return Ok(Step::Fails(1));
    }
    if meaning.count() <= serial {
        return Ok(Step::Fails(1));
    }
    let step = pinned_turn(alloc, meaning, serial, datagram, behind)?;
    Ok(step)
}

// The serial of a pin.
fn pinned(mark: &Mark) -> Option<u64>
    ensures { MatchOption result ((serial : ℕ) → mark.now ≡ Pinned serial → ⊥)
        (λ serial. mark.now ≡ Pinned serial) }
{
    match mark {
        Mark::Pinned(serial) => Some(*serial),
        _ => None,
    }
}

// A turn behind its pin.
fn pinned_turn<'a, M: TurnMeaning>(
    alloc: Global,
    meaning: &M,
    serial: u64,
    datagram: &Datagram,
    marks: &'a [Mark],
) -> Result<Step<'a>, NoMemory>
    requires { serial < M.published meaning.now }
    ensures { IfOk result (λ step.
        PinsSo (M.serves meaning.now) serial datagram.now marks.now step) }
{
    let count = own_count(marks);
    let (own, tail) = marks.split_at(count);
    let means = meaning.mean(alloc, serial, datagram, own)?;
    match reply_of(means) {
        Err(at) => Ok(Step::Fails(2 + at)),
        Ok(reply) => match tail_of(&reply, serial, tail) {
            Tail::Ends(more) => Ok(Step::Goes(serial, more)),
            Tail::Fails(at) => Ok(Step::Fails(2 + count + at)),
        },
    }
}

// What a turn may reply, by what its datagram means; or the mark that may not stand there.
fn reply_of(means: TurnMeans) -> Result<Option<Buffer>, usize>
    ensures { result ≡ reply_in means }
{
    match means {
        TurnMeans::Replies(reply) => Ok(Some(reply)),
        TurnMeans::Silence | TurnMeans::Short => Ok(None),
        TurnMeans::Off(at) => Err(at),
    }
}
