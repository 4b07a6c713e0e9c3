ghost use Rattle.std.specs.Prelude.{◌≡◌, Some, None, IfOk};
ghost use Rattle.dns_data.specs.Message.{no_answer};
ghost use Rattle.dns_wire.specs.{QueriesThis};
ghost use Rattle.plugin_api.specs.{Sayings};
ghost use Rattle.chain_meaning.specs.{steps_of};
ghost use Rattle.plain_chain.specs.Reading.{IsWhole};
ghost use Rattle.plain_chain.specs.Serving.{GivesAnswer};
ghost use Rattle.plain_chain.specs.Turning.{Turns};

use crate::arriving::{Arrival, arrive};
use crate::deciding::{asks_extra, decide};
use crate::reading::PlainRead;
use chain_build::{limit_of, opt_reply, query_of, reply_message, upper_code};
use chain_meaning::{Decision, number};
use dns_data::{Buffer, NoMemory, Slot};
use dns_wire::Asked;
use dns_write::write_parts;
use outside::{Datagram, Mark};
use plain_marks::Meant;
use std::alloc::Global;

/// What a datagram means by a list of marks.
#[derive(Debug, Drop)]
pub enum PlainTurn<'a> {
    /// The reply's bytes, where there is one, and the marks that are left.
    Done(Option<Buffer>, &'a [Mark]),
    /// The block that is asked has an extra's directive, and what extras say isn't known here.
    HasExtra,
    /// The marks end too early.
    More,
    /// The marks from the first one on that is another than what is taken there.
    Off(&'a [Mark]),
}

/// What a datagram means by a list of marks, under what was read of a bundle.
pub fn plain_turn<'a>(
    alloc: Global,
    read: &PlainRead<'_>,
    datagram: &Datagram,
    marks: &'a [Mark],
) -> Result<PlainTurn<'a>, NoMemory>
    requires { IsWhole read.now }
    ensures { (said : Sayings) → Turns (steps_of said read.now.files.now) read.now.blocks
        datagram.now marks.now result }
{
    match arrive(alloc, datagram)? {
        Arrival::Short => Ok(PlainTurn::Done(None, marks)),
        Arrival::Response => Ok(PlainTurn::Done(None, marks)),
        Arrival::Header(bytes) => Ok(PlainTurn::Done(Some(bytes), marks)),
        Arrival::Asks(asked) => reply(alloc, read, datagram, asked, marks),
    }
}

// The reply to what a query asks.
fn reply<'a>(
    alloc: Global,
    read: &PlainRead<'_>,
    datagram: &Datagram,
    asked: Asked,
    marks: &'a [Mark],
) -> Result<PlainTurn<'a>, NoMemory>
    requires whole { IsWhole read.now }
    requires asks { QueriesThis datagram.now.bytes asked }
    ensures { (said : Sayings) → Turns (steps_of said read.now.files.now) read.now.blocks
        datagram.now marks.now result }
{
    let (id, class, opt) = (asked.id, asked.question.class, asked.opt);
    let limit = limit_of(datagram.by, opt);
    let query = query_of(datagram, asked);
    if asks_extra(read, opt, class, &query) {
        return Ok(PlainTurn::HasExtra);
    }
    let (decision, left) = match decide(alloc, read, opt, class, &query, marks)? {
        Meant::Done(decision, left) => (decision, left),
        Meant::More => return Ok(PlainTurn::More),
        Meant::Off(left) => return Ok(PlainTurn::Off(left)),
    };
    let mut slot = Slot::new(alloc);
    if !fill(alloc, &decision, &mut slot)? {
        return Ok(PlainTurn::Done(None, left));
    }
    let opt = opt_reply(upper_code(opt), opt);
    let parts = reply_message(id, class, opt, &query, &slot);
    let bytes = write_parts(alloc, Buffer::new(alloc), &parts, limit)?;
    Ok(PlainTurn::Done(Some(bytes), left))
}

// Leaves the answer of a decision in the slot, where it has a reply.
fn fill(alloc: Global, decision: &Decision, slot: &mut Slot) -> Result<bool, NoMemory>
    requires clear { slot.old ≡ no_answer }
    ensures { IfOk result (GivesAnswer decision.now slot.new) }
{
    match decision {
        Decision::Reply(answer) => {
            slot.fill(alloc, answer)?;
            Ok(true)
        }
        Decision::Code(code, _) => {
            slot.rcode = number(*code);
            Ok(true)
        }
        Decision::Drop => Ok(false),
    }
}
