ghost use Rattle.dns_data.specs.declared.limit.TheConstants as limits;
ghost use Rattle.std.specs.Prelude.{◌≡◌, ◌<◌, [], ◌∷◌, None, length, true};
ghost use Rattle.std.specs.Option.{is_some};
ghost use Rattle.outside.specs.declared.mark.Mark.TheVariants.{Got, Unpinned};
ghost use Rattle.outside.specs.Marks.{Adds, Grows};
ghost use Rattle.outside.specs.Causes.{Rose};
ghost use Rattle.outside.specs.States.{Stays};
ghost use Rattle.pin_table.specs.{IsPassOf, IsPinnedOn, SamePass, pass_of};
ghost use Rattle.query_worker.specs.Pins.{IsResting};
ghost use Rattle.query_worker.specs.Worker.{AddsTurn, IsOfDatagram, SendsServed};

use chain_build::{Arrived, Chain, Room, serve};
use chain_meaning::Served;
use outside::{Received, Seen, Side};
use pin_table::{Pass, Pin, PinTable};
use plugin_api::{Extra, Rulebook};
use std::alloc::Global;
use std::sync::Wait;

/// A section of an answer with more records than so many leaves no room behind.
const KEPT_RECORDS: usize = 4_096;

/// What one turn of a worker came to, with the serial under which a datagram was taken.
#[derive(Clone, Copy, Debug, PartialEq, Eq)]
pub enum Turned {
    /// A datagram got its reply, or silence with a cause.
    Answered(u64),
    /// A datagram met want of memory.
    Starved(u64),
    RecvFailed,
    RecvStarved,
    RecvEnd,
}

/// One turn: takes a datagram, pins the current generation, serves, sends, and unpins. A side that
/// was told of its worker's end takes none any more.
pub fn take_turn<R: Wait, S: Side, B: Rulebook, E: Extra>(
    rt: &R,
    alloc: Global,
    side: &mut S,
    pass: &mut Pass<Chain<B, E>>,
    table: &PinTable<Chain<B, E>>,
    room: &mut Room,
) -> Turned
    requires rests { IsResting table.now pass.old }
    requires few { length (pass_of pass.old).turns < limits.TURNS }
    requires stays { (S.state side.old).left ≡ 0 }
    ensures told { Grows (S.state side.old) (S.state side.new)
        (AddsTurn (pass_of pass.old) (pass_of pass.new) result) }
    ensures stays { Stays (S.state side.old) (S.state side.new) }
    ensures failed { result ≡ Turned.RecvFailed
        → Rose (S.state side.old).counts.recv (S.state side.new).counts.recv }
    ensures same { SamePass pass.old pass.new }
    ensures rests { IsResting table.now pass.new }
{
    match side.recv() {
        Received::Got(datagram) => {
            let arrived = Arrived {
                rt,
                alloc,
                datagram: &datagram,
            };
            let turned = answer(&arrived, side, pass, table, room);
            side.take_back(datagram.bytes);
            rest(alloc, room);
            turned
        }
        Received::End => Turned::RecvEnd,
        Received::Failed => Turned::RecvFailed,
        Received::NoMemory => Turned::RecvStarved,
    }
}

// Serves a datagram that was taken, between pin and unpin.
fn answer<R: Wait, S: Side, B: Rulebook, E: Extra>(
    arrived: &Arrived<'_, R>,
    side: &mut S,
    pass: &mut Pass<Chain<B, E>>,
    table: &PinTable<Chain<B, E>>,
    room: &mut Room,
) -> Turned
    requires rests { IsResting table.now pass.old }
    requires few { length (pass_of pass.old).turns < limits.TURNS }
    ensures told { Grows (S.state side.old) (S.state side.new)
        (λ marks. AddsTurn (pass_of pass.old) (pass_of pass.new) result
        (Got arrived.now.datagram.now ∷ marks)) }
    ensures stays { Stays (S.state side.old) (S.state side.new) }
    ensures same { SamePass pass.old pass.new }
    ensures rests { IsResting table.now pass.new }
    ensures datagram { IsOfDatagram result }
{
    let (serial, mut chain) = pin(table, pass);
    side.saw(Seen::Pinned(serial));
    let served = serve(
        arrived.rt,
        arrived.alloc,
        &mut chain,
        arrived.datagram,
        side,
        room,
    );
    let turned = send(side, pass, serial, served, room);
    table.unpin(pass, chain);
    show_unpinned(side, pass, serial);
    turned
}

// Pins the current generation, and gives its serial and this worker's chain of it.
#[inline]
fn pin<B: Rulebook, E: Extra>(
    table: &PinTable<Chain<B, E>>,
    pass: &mut Pass<Chain<B, E>>,
) -> (u64, Chain<B, E>)
    requires own { IsPassOf table.now pass.old }
    requires idle { (pass_of pass.old).held ≡ None }
    requires few { length (pass_of pass.old).turns < limits.TURNS }
    ensures same { SamePass pass.old pass.new }
    ensures pinned { IsPinnedOn (pass_of pass.old) result.0 result.1 (pass_of pass.new) }
{
    match table.pin(pass) {
        Pin::Pinned { serial, chain } => (serial, chain),
        Pin::Spent => unreachable!(),
    }
}

// Shows the side that the pin of this serial has ended: the pass holds none any more.
#[inline]
fn show_unpinned<S: Side, B: Rulebook, E: Extra>(
    side: &mut S,
    pass: &Pass<Chain<B, E>>,
    serial: u64,
)
    requires ended { (pass_of pass.now).held ≡ None }
    ensures told { Adds (S.state side.old) (S.state side.new) (Unpinned serial ∷ []) }
    ensures stays { Stays (S.state side.old) (S.state side.new) }
{
    side.saw(Seen::Unpinned(serial));
}

// Sends the reply, where there is one, while the pass holds its pin, and keeps its bytes for the
// next one. A reply that didn't go out ends nothing: the client asks again.
fn send<S: Side, B: Rulebook, E: Extra>(
    side: &mut S,
    pass: &Pass<Chain<B, E>>,
    serial: u64,
    served: Served,
    room: &mut Room,
) -> Turned
    requires held { is_some (pass_of pass.now).held ≡ true }
    ensures sends { SendsServed (S.state side.old) (S.state side.new) serial served result }
    ensures stays { Stays (S.state side.old) (S.state side.new) }
{
    match served {
        Served::Reply(bytes) => {
            let _ = side.send(bytes.as_slice());
            room.reply = bytes;
            Turned::Answered(serial)
        }
        Served::Silent(_) => Turned::Answered(serial),
        Served::NoMemory => Turned::Starved(serial),
    }
}

// Gives back what a long answer took. The room of others stays for the next query.
#[inline]
fn rest(alloc: Global, room: &mut Room) {
    let slot = &room.front.walk.plugins.slot;
    if KEPT_RECORDS < slot.answer.len()
        || KEPT_RECORDS < slot.authority.len()
        || KEPT_RECORDS < slot.additional.len()
    {
        begin_anew(alloc, room);
    }
}

#[cold]
#[inline(never)]
fn begin_anew(alloc: Global, room: &mut Room) {
    *room = Room::new(alloc);
}
