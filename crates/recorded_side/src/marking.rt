//! The mark of each call of a side.

ghost use Rattle.std.specs.Prelude.{◌≡◌, IfOk};
ghost use Rattle.outside.specs.declared.entry.InnerMark.TheVariants.{Asked, More};
ghost use Rattle.outside.specs.declared.mark.Mark.TheVariants.{Got, Sent, Noted, Inner};
ghost use Rattle.outside.specs.Marks.{went, mark_of};

use dns_data::{Bytes, Copies, NoMemory, Transport};
use outside::{Datagram, InnerMark, Mark, Outcome, Seen, Upstream, Wrote};
use std::alloc::Global;

pub(crate) fn got(alloc: Global, datagram: &Datagram) -> Result<Mark, NoMemory>
    ensures { IfOk result (λ mark. mark ≡ Got datagram.now) }
{
    Ok(Mark::Got(datagram.copy(alloc)?))
}

pub(crate) fn sent(alloc: Global, reply: &[u8], wrote: Wrote) -> Result<Mark, NoMemory>
    ensures { IfOk result (λ mark. mark ≡ Sent reply.now (went wrote)) }
{
    Ok(Mark::Sent(Bytes::from_slice(alloc, reply)?, went(wrote)))
}

pub(crate) fn noted(alloc: Global, line: &[u8], wrote: Wrote) -> Result<Mark, NoMemory>
    ensures { IfOk result (λ mark. mark ≡ Noted line.now (went wrote)) }
{
    Ok(Mark::Noted(Bytes::from_slice(alloc, line)?, went(wrote)))
}

pub(crate) fn asked(
    alloc: Global,
    to: Upstream,
    by: Transport,
    message: &[u8],
    outcome: &Outcome,
) -> Result<Mark, NoMemory>
    ensures { IfOk result (λ mark. mark ≡ Inner (Asked to by message.now outcome.now)) }
{
    let message = Bytes::from_slice(alloc, message)?;
    let outcome = outcome.copy(alloc)?;
    Ok(Mark::Inner(InnerMark::Asked(to, by, message, outcome)))
}

pub(crate) fn more(alloc: Global, outcome: &Outcome) -> Result<Mark, NoMemory>
    ensures { IfOk result (λ mark. mark ≡ Inner (More outcome.now)) }
{
    Ok(Mark::Inner(InnerMark::More(outcome.copy(alloc)?)))
}

pub(crate) fn seen(alloc: Global, what: Seen<'_>) -> Result<Mark, NoMemory>
    ensures { IfOk result (λ mark. mark ≡ mark_of what.entry) }
{
    Ok(match what {
        Seen::Pinned(serial) => Mark::Pinned(serial),
        Seen::Unpinned(serial) => Mark::Unpinned(serial),
        Seen::Looked(key, moment, None) => Mark::Looked(key.copy(alloc)?, moment, None),
        Seen::Looked(key, moment, Some(entry)) => {
            Mark::Looked(key.copy(alloc)?, moment, Some(entry.copy(alloc)?))
        }
        Seen::Put(key, entry, kept) => Mark::Put(key.copy(alloc)?, entry.copy(alloc)?, kept),
        Seen::Inner(mark) => Mark::Inner(mark.copy(alloc)?),
    })
}

// Whether what was handed out went out.
fn went(wrote: Wrote) -> bool
    ensures { result ≡ went wrote }
{
    match wrote {
        Wrote::Ok => true,
        Wrote::Failed => false,
    }
}
