//! The spare extras of a stock: taking one of a name, and giving those of seats back.
ghost use Rattle.std.specs.Prelude.{◌≡◌, ◌<◌, ◌+◌, ◌≤◌, ◌↔◌, ◌∷◌, ℕ, List, [], length, true};
ghost use Rattle.std.specs.Prelude.{IfOk, IfSome, IfNone, OnOk, OnErr, IsTrue, nat_eq};
ghost use Rattle.std.specs.Prelude.{slice_index_or, vec_len, vec_capacity};
ghost use Rattle.std.specs.Cmp.Lexicographic.{pointwise};
ghost use Rattle.std.specs.List.{All};
ghost use Rattle.plugin_api.specs.{Obey, Obeys};
ghost use Rattle.extra_stock.specs.Stocks.{asked_by, is_named, names_weigh, seats_in};

use crate::seat::Seat;
use crate::seats::Seats;
use dns_data::{Directive, Directives, NoMemory};
use plugin_api::{Extra, Rulebook};
use std::alloc::Global;

// Whether two names are the same, letter by letter.
pub(crate) fn is_same(name: &[u8], other: &[u8]) -> bool
    ensures value { result ≡ pointwise nat_eq name.now other.now }
    ensures same { IsTrue result ↔ (name.now ≡ other.now) }
{
    name == other
}

// The place of the first extra of a name.
fn position_of<E: Extra>(spare: &[E], name: &[u8]) -> Option<usize>
    ensures inside { IfSome result (λ i. i < length spare.now) }
    ensures named { IfSome result
        (λ i. (d : E) → E.title (slice_index_or spare.now i d) ≡ name.now) }
    ensures none { IfNone result (names_weigh E.title (is_named name.now) spare.now ≡ 0) }
{
    for (index, extra) in spare.iter().enumerate() {
        if is_same(extra.name(), name) {
            return Some(index);
        }
    }
    None
}

// Takes an extra of a name out.
pub(crate) fn take<B: Rulebook, E: Extra>(spare: &mut Vec<E>, name: &[u8]) -> Option<E>
    requires obey { Obey B.taken B.said E.title E.takes E.ruling spare.old.items }
    ensures title { IfSome result (λ e. E.title e ≡ name.now) }
    ensures obeys { IfSome result
        (λ e. Obeys B.taken B.said (E.title e) (E.takes e) (E.ruling e)) }
    ensures obey { Obey B.taken B.said E.title E.takes E.ruling spare.new.items }
    ensures weighs { (w : List ℕ → ℕ) → IfSome result
        (λ e. names_weigh E.title w spare.new.items + w (E.title e)
        ≡ names_weigh E.title w spare.old.items) }
    ensures len { IfSome result (λ e. vec_len spare.new + 1 ≡ vec_len spare.old) }
    ensures capacity { vec_capacity spare.new ≡ vec_capacity spare.old }
    ensures none { IfNone result ((spare.new ≡ spare.old)
        × (names_weigh E.title (is_named name.now) spare.old.items ≡ 0)) }
{
    let index = position_of(spare.as_slice(), name)?;
    Some(spare.swap_remove(index))
}

// Gives the extras of seats back.
pub(crate) fn give_back<B: Rulebook, E: Extra>(seats: &mut Vec<Seat<B, E>>, spare: &mut Vec<E>)
    requires obey { Obey B.taken B.said E.title E.takes E.ruling spare.old.items }
    requires room { vec_len spare.old + length seats.old.items ≤ vec_capacity spare.old }
    ensures empty { seats.new.items ≡ [] }
    ensures obey { Obey B.taken B.said E.title E.takes E.ruling spare.new.items }
    ensures weighs { (w : List ℕ → ℕ) → names_weigh E.title w spare.new.items
        ≡ names_weigh E.title w spare.old.items + names_weigh (λ d. d.name) w seats.old.items }
    ensures len { vec_len spare.new ≡ vec_len spare.old + length seats.old.items }
    ensures capacity { vec_capacity spare.new ≡ vec_capacity spare.old }
{
    while let Some(seat) = seats.pop() {
        spare.push_reserved(seat.into_extra());
    }
}

// Seats an extra for each directive of a block. Where one can't be set for want of memory, all come
// back.
pub(crate) fn seat_block<B: Rulebook, E: Extra>(
    alloc: Global,
    directives: &[Directive],
    spare: &mut Vec<E>,
) -> Result<Seats<B, E>, NoMemory>
    requires obey { Obey B.taken B.said E.title E.takes E.ruling spare.old.items }
    requires taken { All (λ d. B.taken d.name d ≡ true) directives.now }
    requires enough { (n : List ℕ) → names_weigh (λ d. d.name) (is_named n) directives.now
        ≤ names_weigh E.title (is_named n) spare.old.items }
    ensures seats { IfOk result (λ seats. seats ≡ directives.now) }
    ensures obey { Obey B.taken B.said E.title E.takes E.ruling spare.new.items }
    ensures ok { (w : List ℕ → ℕ) → OnOk result (names_weigh E.title w spare.new.items
        + names_weigh (λ d. d.name) w directives.now ≡ names_weigh E.title w spare.old.items) }
    ensures err { (w : List ℕ → ℕ) → OnErr result (names_weigh E.title w spare.new.items
        ≡ names_weigh E.title w spare.old.items) }
    ensures ok_len { OnOk result
        (vec_len spare.new + length directives.now ≡ vec_len spare.old) }
    ensures err_len { OnErr result (vec_len spare.new ≡ vec_len spare.old) }
    ensures capacity { vec_capacity spare.new ≡ vec_capacity spare.old }
{
    let mut seats = Vec::with_capacity(alloc, directives.len())?;
    for directive in directives {
        let Some(extra) = take::<B, E>(spare, directive.name.as_str().as_bytes()) else {
            unreachable!()
        };
        match Seat::of(alloc, extra, directive) {
            Ok(seat) => seats.push_reserved(seat),
            Err(extra) => {
                spare.push_reserved(extra);
                give_back(&mut seats, spare);
                return Err(NoMemory);
            }
        }
    }
    Ok(Seats { seats })
}

/// Gives the extras of blocks back.
pub fn give_blocks<B: Rulebook, E: Extra>(blocks: &mut Vec<Seats<B, E>>, spare: &mut Vec<E>)
    requires obey { Obey B.taken B.said E.title E.takes E.ruling spare.old.items }
    requires room { vec_len spare.old + seats_in blocks.old.items ≤ vec_capacity spare.old }
    ensures empty { blocks.new.items ≡ [] }
    ensures kept { vec_capacity blocks.new ≡ vec_capacity blocks.old }
    ensures obey { Obey B.taken B.said E.title E.takes E.ruling spare.new.items }
    ensures weighs { (w : List ℕ → ℕ) → names_weigh E.title w spare.new.items
        ≡ names_weigh E.title w spare.old.items + asked_by w blocks.old.items }
    ensures len { vec_len spare.new ≡ vec_len spare.old + seats_in blocks.old.items }
    ensures capacity { vec_capacity spare.new ≡ vec_capacity spare.old }
{
    while let Some(block) = blocks.pop() {
        let Seats { mut seats } = block;
        give_back(&mut seats, spare);
    }
}

/// Seats the extras of a chain, block by block. Without memory all come back.
pub fn seat_blocks<B: Rulebook, E: Extra>(
    alloc: Global,
    blocks: &[Directives],
    spare: &mut Vec<E>,
) -> Result<Vec<Seats<B, E>>, NoMemory>
    requires obey { Obey B.taken B.said E.title E.takes E.ruling spare.old.items }
    requires taken { All (λ ds. All (λ d. B.taken d.name d ≡ true) ds) blocks.now }
    requires enough { (n : List ℕ) → asked_by (is_named n) blocks.now
        ≤ names_weigh E.title (is_named n) spare.old.items }
    ensures seats { IfOk result (λ seats. seats.items ≡ blocks.now) }
    ensures obey { Obey B.taken B.said E.title E.takes E.ruling spare.new.items }
    ensures ok { (w : List ℕ → ℕ) → OnOk result (names_weigh E.title w spare.new.items
        + asked_by w blocks.now ≡ names_weigh E.title w spare.old.items) }
    ensures err { (w : List ℕ → ℕ) → OnErr result (names_weigh E.title w spare.new.items
        ≡ names_weigh E.title w spare.old.items) }
    ensures ok_len { OnOk result
        (vec_len spare.new + seats_in blocks.now ≡ vec_len spare.old) }
    ensures err_len { OnErr result (vec_len spare.new ≡ vec_len spare.old) }
    ensures capacity { vec_capacity spare.new ≡ vec_capacity spare.old }
{
    let mut seated = Vec::with_capacity(alloc, blocks.len())?;
    for block in blocks {
        match seat_block(alloc, block.as_slice(), spare) {
            Ok(seats) => seated.push_reserved(seats),
            Err(NoMemory) => {
                give_blocks(&mut seated, spare);
                return Err(NoMemory);
            }
        }
    }
    Ok(seated)
}
