//! What the orders of a record come to.
ghost use Rattle.std.specs.Prelude.{◌≡◌, IfOk, option_map};
ghost use Rattle.audit_run.specs.Judging.{IsFaultOf, JudgesOrder, JudgesOrders, LackOrders, Lacks};
ghost use Rattle.audit_run.specs.Judging.{Tells};
ghost use Rattle.audit_run.specs.Judging.{first_fault, has_order, part_of, same_part};
ghost use Rattle.audit_run.specs.Judging.{stands_again};

use crate::following::{are_empty, follow};
use crate::rows::rows_of;
use crate::{AuditFault, Order, Place, SharedCalls, SharedPart, SideRecord};
use dns_data::NoMemory;
use std::alloc::Global;

/// Judges the orders of a record: whether each is a history of its part, and each part with marks
/// has one. `calls` are what each side's journal tells of calls, in its order, and `parts` what
/// they are calls of.
pub fn judge_orders(
    alloc: Global,
    sides: &[SideRecord],
    calls: &[SharedCalls],
    parts: &[SharedPart],
    orders: &[Order],
) -> Result<(), AuditFault>
    ensures judges { JudgesOrders sides.now calls.now parts.now orders.now result }
    ensures tells { Tells sides.now calls.now parts.now orders.now result }
{
    first_order_fault(alloc, sides, calls, parts, orders)
}

fn first_order_fault(
    alloc: Global,
    sides: &[SideRecord],
    calls: &[SharedCalls],
    parts: &[SharedPart],
    orders: &[Order],
) -> Result<(), AuditFault>
    ensures { JudgesOrders sides.now calls.now parts.now orders.now result }
{
    for (number, order) in orders.iter().enumerate() {
        match judge_order(alloc, sides, calls, parts, &orders[..number], order) {
            Ok(None) => {}
            Ok(Some(at)) => return Err(order_fault(number, at)),
            Err(_) => return Err(AuditFault::NoMemory),
        }
    }
    match lack_orders(alloc, calls, parts, orders) {
        Ok(false) => Ok(()),
        Ok(true) => Err(order_fault(orders.len(), 0)),
        Err(_) => Err(AuditFault::NoMemory),
    }
}

// What an order comes to behind these.
fn judge_order(
    alloc: Global,
    sides: &[SideRecord],
    calls: &[SharedCalls],
    parts: &[SharedPart],
    earlier: &[Order],
    order: &Order,
) -> Result<Option<usize>, NoMemory>
    ensures { IfOk result (λ at.
        JudgesOrder sides.now calls.now parts.now earlier.now order.now at) }
{
    if stands_again(earlier, order) {
        return Ok(Some(0));
    }
    let Some(part) = part_of(parts, order) else {
        return Ok(first_fault(order.marks.as_slice()));
    };
    let at = follow(alloc, sides, calls, part, order.marks.as_slice())?;
    Ok(at)
}

// Whether some marks of an order stand in an earlier one.
fn stands_again(earlier: &[Order], order: &Order) -> bool
    ensures { result ≡ stands_again earlier.now order.now }
{
    if order.marks.as_slice().is_empty() {
        return false;
    }
    for other in earlier {
        if is_same_part(order, other) {
            return true;
        }
    }
    false
}

fn is_same_part(order: &Order, other: &Order) -> bool
    ensures { result ≡ same_part order.now other.now }
{
    order.part == other.part && order.serial == other.serial && order.block == other.block
}

// Of no part there is no mark.
fn first_fault(places: &[Place]) -> Option<usize>
    ensures { result ≡ first_fault places.now }
{
    if places.is_empty() { None } else { Some(0) }
}

fn part_of<'a>(parts: &'a [SharedPart], order: &Order) -> Option<&'a SharedPart>
    ensures { option_map (λ p. p.now) result ≡ part_of parts.now order.now }
{
    for part in parts {
        if part.is_named_by(order) {
            return Some(part);
        }
    }
    None
}

fn has_order(orders: &[Order], part: &SharedPart) -> bool
    ensures { result ≡ has_order orders.now part.now }
{
    for order in orders {
        if part.is_named_by(order) {
            return true;
        }
    }
    false
}

// Whether one of these parts has marks and no order.
fn lack_orders(
    alloc: Global,
    calls: &[SharedCalls],
    parts: &[SharedPart],
    orders: &[Order],
) -> Result<bool, NoMemory>
    ensures { IfOk result (λ lack. LackOrders calls.now parts.now orders.now lack) }
{
    for part in parts {
        if lacks_order(alloc, calls, orders, part)? {
            return Ok(true);
        }
    }
    Ok(false)
}

// Whether a part with marks has no order.
fn lacks_order(
    alloc: Global,
    calls: &[SharedCalls],
    orders: &[Order],
    part: &SharedPart,
) -> Result<bool, NoMemory>
    ensures { IfOk result (λ lacks. Lacks calls.now orders.now part.now lacks) }
{
    if has_order(orders, part) {
        return Ok(false);
    }
    let rows = rows_of(alloc, calls, part)?;
    Ok(!are_empty(&rows))
}

// A fault at this place, where numbers of 32 bits name it.
fn order_fault(number: usize, at: usize) -> AuditFault
    ensures { IsFaultOf number at result }
{
    match (u32::try_from(number), u32::try_from(at)) {
        (Ok(order), Ok(at)) => AuditFault::Order { order, at },
        _ => AuditFault::NoMemory,
    }
}
