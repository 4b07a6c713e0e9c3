//! The end of a turn in a side's journal, and the marks that serving a datagram made.
ghost use Rattle.std.specs.Prelude.{◌≡◌, ◌≤◌, ◌↔◌, Bool, IsTrue, length, take, drop};
ghost use Rattle.outside.specs.declared.mark.Mark.TheVariants.{Sent, Unpinned};
ghost use Rattle.audit_run.specs.Own.{behind_own, is_own, own_part};
ghost use Rattle.audit_run.specs.Walking.{EndsSent, EndsTurn};

use crate::walk::Tail;
use dns_data::Buffer;
use outside::Mark;

// Whether serving a datagram makes this mark.
fn is_own(mark: &Mark) -> bool
    ensures { result ≡ is_own mark.now }
{
    match mark {
        Mark::Got(_) | Mark::RecvEnd | Mark::RecvFailed => false,
        Mark::Sent(_, _) | Mark::Pinned(_) | Mark::Unpinned(_) => false,
        Mark::Now(_) | Mark::Inner(_) | Mark::Noted(_, _) => true,
        Mark::Looked(_, _, _) | Mark::Put(_, _, _) => true,
    }
}

/// How many of these marks, from the first on, serving made.
pub(crate) fn own_count(marks: &[Mark]) -> usize
    ensures within { result ≤ length marks.now }
    ensures own { take result marks.now ≡ own_part marks.now }
    ensures behind { drop result marks.now ≡ behind_own marks.now }
{
    for (at, mark) in marks.iter().enumerate() {
        if !is_own(mark) {
            return at;
        }
    }
    marks.len()
}

/// The end of a turn that pinned this serial, and may have sent this reply.
pub(crate) fn tail_of<'a>(reply: &Option<Buffer>, serial: u64, marks: &'a [Mark]) -> Tail<'a>
    ensures { EndsTurn reply.now serial marks.now result }
{
    let Some((first, rest)) = marks.split_first() else {
        return Tail::Fails(0);
    };
    if is_unpinned(first, serial) {
        return Tail::Ends(rest);
    }
    let Some(reply) = reply else {
        return Tail::Fails(0);
    };
    if !is_sent(first, reply) {
        return Tail::Fails(0);
    }
    sent_tail(serial, rest)
}

// The same behind the mark that tells that the reply was sent.
fn sent_tail<'a>(serial: u64, marks: &'a [Mark]) -> Tail<'a>
    ensures { EndsSent serial marks.now result }
{
    let Some((first, rest)) = marks.split_first() else {
        return Tail::Fails(1);
    };
    if is_unpinned(first, serial) {
        return Tail::Ends(rest);
    }
    Tail::Fails(1)
}

fn is_unpinned(mark: &Mark, serial: u64) -> bool
    ensures { IsTrue result ↔ (mark.now ≡ Unpinned serial) }
{
    match mark {
        Mark::Unpinned(unpinned) => *unpinned == serial,
        _ => false,
    }
}

fn is_sent(mark: &Mark, reply: &Buffer) -> bool
    ensures { IsTrue result ↔ ((out : Bool) × (mark.now ≡ Sent reply.now out)) }
{
    match mark {
        Mark::Sent(sent, _) => sent.is(reply.as_slice()),
        _ => false,
    }
}
