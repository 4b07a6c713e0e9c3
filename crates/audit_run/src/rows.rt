//! What is left of a part's calls while an order of them is followed.
ghost use Rattle.std.specs.Prelude.{◌≡◌, ◌≤◌, ◌<◌, ◌==◌, ◌↔◌, ℕ, IsTrue, IfOk, IfSome, IfNone};
ghost use Rattle.std.specs.Prelude.{List, map, take, length};
ghost use Rattle.audit_run.specs.declared.rows.LeftCall.{LeftCall};
ghost use Rattle.audit_run.specs.Rows.{IsNextAt, TakesNext, TakesPlace, has_serial, left_of};

use crate::{Place, SharedCall, SharedCalls, SharedPart};
use dns_data::NoMemory;
use std::alloc::Global;
use std::collections::VecDeque;
use std::marker::Model;

/// A call by the serial that its turn pinned, and the number of its mark.
#[derive(Clone, Copy, Debug)]
pub(crate) struct LeftCall {
    pub serial: u64,
    pub mark: u32,
}

/// The calls of a side that are left, in their order.
#[derive(Drop)]
pub(crate) struct Row {
    left: VecDeque<LeftCall>,
}

impl Model for Row {
    ghost use Rattle.std.specs.Prelude.{List};
    ghost use Rattle.audit_run.specs.declared.rows.LeftCall.{LeftCall};

    ghost Value = { List LeftCall };

    ghost view = { λ r. r.left.items };
}

impl Row {
    // Those of a side's calls that are of a part.
    fn new(alloc: Global, calls: &[SharedCall], part: &SharedPart) -> Result<Row, NoMemory>
        ensures { IfOk result (λ row. row ≡ left_of part.now calls.now) }
    {
        let mut left = VecDeque::new(alloc);
        for call in calls {
            if part.has(call) {
                left.push_back(LeftCall {
                    serial: call.serial,
                    mark: call.mark,
                })?;
            }
        }
        Ok(Row { left })
    }

    pub(crate) fn is_empty(&self) -> bool
        ensures { result ≡ (length self.now == 0) }
    {
        self.left.is_empty()
    }

    // Takes out the call that this mark tells, where it is the next one of its serial, and gives
    // the serial.
    fn take(&mut self, mark: u32) -> Option<u64>
        ensures { TakesNext self.old mark result self.new }
    {
        let Some(at) = self.next_at(mark) else {
            return None;
        };
        match self.left.remove(at) {
            Some(left) => Some(left.serial),
            None => unreachable!(),
        }
    }

    // Where the call of a mark stands that is the next one of its serial.
    fn next_at(&self, mark: u32) -> Option<usize>
        ensures found { IfSome result (λ at. IsNextAt self.now mark at) }
        ensures none { IfNone result ((at : ℕ) → IsNextAt self.now mark at → ⊥) }
    {
        for at in 0..self.left.len() {
            if self.is_next(at, mark) {
                return Some(at);
            }
        }
        None
    }

    fn is_next(&self, at: usize, mark: u32) -> bool
        requires { at < length self.now }
        ensures { IsTrue result ↔ IsNextAt self.now mark at }
    {
        let left = self.left[at];
        if left.mark != mark {
            return false;
        }
        !self.has_before(at, left.serial)
    }

    // Whether a call in front of this place is of a serial.
    fn has_before(&self, at: usize, serial: u64) -> bool
        requires { at ≤ length self.now }
        ensures { result ≡ has_serial serial (take at self.now) }
    {
        for before in 0..at {
            if self.left[before].serial == serial {
                return true;
            }
        }
        false
    }
}

/// Of each side, its calls of a part.
pub(crate) fn rows_of(
    alloc: Global,
    calls: &[SharedCalls],
    part: &SharedPart,
) -> Result<Vec<Row>, NoMemory>
    ensures { IfOk result (λ rows. rows.items ≡ map (λ own. left_of part.now own) calls.now) }
{
    let mut rows = Vec::with_capacity(alloc, calls.len())?;
    for own in calls {
        rows.push(Row::new(alloc, own.as_slice(), part)?)?;
    }
    Ok(rows)
}

/// Takes out the call of a place, where it is the next one of its side and serial.
pub(crate) fn take_place(rows: &mut Vec<Row>, place: &Place) -> Option<u64>
    ensures { TakesPlace rows.old.items place.now result rows.new.items }
{
    let side = place.side as usize;
    if rows.len() <= side {
        return None;
    }
    rows[side].take(place.mark)
}
