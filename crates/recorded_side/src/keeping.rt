//! What is kept of each call of a side.

ghost use Rattle.std.specs.Prelude.{◌≡◌, [], ◌∷◌, None, MatchResult};
ghost use Rattle.outside.specs.Marks.{ask_marks, more_marks, noted, now_mark, recv_marks};
ghost use Rattle.outside.specs.Marks.{seen_mark, sent, word_mark};
ghost use Rattle.recorded_side.specs.Keeping.{KeepsMore};

use crate::marking::{asked, got, more, noted, seen, sent};
use crate::recording::Marks;
use dns_data::{NoMemory, Transport};
use outside::{InnerMark, Mark, Outcome, Received, Seen, Upstream, Wrote};
use std::alloc::Global;

pub(crate) fn keep_recv(alloc: Global, kept: &mut Option<Marks>, received: &Received)
    ensures { KeepsMore kept.old kept.new (recv_marks received.now) }
{
    match received {
        Received::Got(datagram) => keep(kept, got(alloc, datagram)),
        Received::End => keep(kept, Ok(Mark::RecvEnd)),
        Received::Failed => keep(kept, Ok(Mark::RecvFailed)),
        Received::NoMemory => {}
    }
}

pub(crate) fn keep_sent(alloc: Global, kept: &mut Option<Marks>, reply: &[u8], wrote: Wrote)
    ensures { KeepsMore kept.old kept.new (sent reply.now wrote) }
{
    keep(kept, sent(alloc, reply, wrote));
}

pub(crate) fn keep_now(kept: &mut Option<Marks>, moment: u64)
    ensures { KeepsMore kept.old kept.new (now_mark moment) }
{
    keep(kept, Ok(Mark::Now(moment)));
}

pub(crate) fn keep_word(kept: &mut Option<Marks>, word: u64)
    ensures { KeepsMore kept.old kept.new (word_mark word) }
{
    keep(kept, Ok(Mark::Inner(InnerMark::Word(word))));
}

pub(crate) fn keep_ask(
    alloc: Global,
    kept: &mut Option<Marks>,
    to: Upstream,
    by: Transport,
    message: &[u8],
    outcome: &Outcome,
)
    ensures { KeepsMore kept.old kept.new (ask_marks to by message.now outcome.now) }
{
    keep(kept, asked(alloc, to, by, message, outcome));
}

pub(crate) fn keep_more(alloc: Global, kept: &mut Option<Marks>, outcome: &Outcome)
    ensures { KeepsMore kept.old kept.new (more_marks outcome.now) }
{
    keep(kept, more(alloc, outcome));
}

pub(crate) fn keep_noted(alloc: Global, kept: &mut Option<Marks>, line: &[u8], wrote: Wrote)
    ensures { KeepsMore kept.old kept.new (noted line.now wrote) }
{
    keep(kept, noted(alloc, line, wrote));
}

pub(crate) fn keep_seen(alloc: Global, kept: &mut Option<Marks>, what: Seen<'_>)
    ensures { KeepsMore kept.old kept.new (seen_mark what.entry) }
{
    keep(kept, seen(alloc, what));
}

// KeepsTold one mark more. Where memory ran out for it, nothing is kept any more.
fn keep(kept: &mut Option<Marks>, mark: Result<Mark, NoMemory>)
    ensures { MatchResult mark
        (λ m. KeepsMore kept.old kept.new (m ∷ [])) (λ _. kept.new ≡ None) }
{
    if let (Some(marks), Ok(mark)) = (&mut *kept, mark) {
        if marks.push(mark).is_ok() {
            return;
        }
    }
    *kept = None;
}
