//! One try of one upstream.

ghost use Rattle.std.specs.Prelude.{◌≡◌, IfOk};
ghost use Rattle.outside.specs.Meanings.{onward};
ghost use Rattle.forward_plugin.specs.Forward.{ask_bytes, judge, most_more, report_means};
ghost use Rattle.forward_plugin.specs.Forward.{take_ask, try_of};
ghost use Rattle.forward_plugin.specs.Replies.{agreed_in};
ghost use Rattle.plain_marks.specs.Meant.{Means};

use crate::meant::Meant;
use crate::taking::{Ask, take_ask, take_more, take_reported, take_word};
use dns_data::{Answer, NoMemory, Query, Slot, Transport};
use forward_plugin::{Numbered, agreed_in, ask_bytes, is_got};
use outside::{Mark, Outcome};
use std::alloc::Global;

/// A query that is passed on to upstreams of a directive.
#[derive(Drop)]
pub(crate) struct Passed<'a> {
    pub alloc: Global,
    pub query: &'a Query,
    /// Over what upstreams are asked.
    pub by: Transport,
    /// Whether workers share a pool for the directive.
    pub is_pooled: bool,
}

/// A try of an upstream, and in a pool its report.
pub(crate) fn tried<'a>(
    passed: &Passed<'_>,
    upstream: &Numbered,
    marks: &'a [Mark],
) -> Result<Meant<'a, Option<Answer>>, NoMemory>
    ensures { IfOk result (Means (λ some. onward
        (try_of upstream.now.upstream passed.now.by passed.now.query.now some)
        (report_means passed.now.is_pooled upstream.now.number)) marks.now) }
{
    match try_of(passed, upstream, marks)? {
        Meant::Done(answer, left) => {
            Ok(report_means(passed.is_pooled, upstream.number, answer, left))
        }
        Meant::More => Ok(Meant::More),
        Meant::Off(left) => Ok(Meant::Off(left)),
    }
}

// A report, where there is a pool.
fn report_means<'a>(
    is_pooled: bool,
    number: u32,
    answer: Option<Answer>,
    marks: &'a [Mark],
) -> Meant<'a, Option<Answer>>
    ensures { Means (report_means is_pooled number answer) marks.now result }
{
    if is_pooled {
        return take_reported(number, answer, marks);
    }
    Meant::Done(answer, marks)
}

// A word, an ask with exactly these bytes, and what came of it.
fn try_of<'a>(
    passed: &Passed<'_>,
    upstream: &Numbered,
    marks: &'a [Mark],
) -> Result<Meant<'a, Option<Answer>>, NoMemory>
    ensures { IfOk result
        (Means (try_of upstream.now.upstream passed.now.by passed.now.query.now) marks.now) }
{
    match take_word(marks) {
        Meant::Done(word, left) => asked(passed, upstream, word, left),
        Meant::More => Ok(Meant::More),
        Meant::Off(left) => Ok(Meant::Off(left)),
    }
}

// An ask whose id this word gives, and what came of it.
fn asked<'a>(
    passed: &Passed<'_>,
    upstream: &Numbered,
    word: u64,
    marks: &'a [Mark],
) -> Result<Meant<'a, Option<Answer>>, NoMemory>
    ensures { IfOk result (Means (λ some. onward
        (take_ask upstream.now.upstream passed.now.by (ask_bytes word passed.now.query.now) some)
        (judge (most_more passed.now.by) word passed.now.query.now)) marks.now) }
{
    let message = ask_bytes(passed.alloc, word, passed.query)?;
    let ask = Ask {
        to: upstream.upstream,
        by: passed.by,
        message: message.as_slice(),
    };
    match take_ask(passed.alloc, &ask, marks)? {
        Meant::Done(outcome, left) => {
            let awaited = Awaited {
                alloc: passed.alloc,
                word,
                query: passed.query,
            };
            judge(&awaited, most_more(passed.by), &outcome, left)
        }
        Meant::More => Ok(Meant::More),
        Meant::Off(left) => Ok(Meant::Off(left)),
    }
}

// An ask whose reply is awaited.
#[derive(Drop)]
struct Awaited<'a> {
    alloc: Global,
    word: u64,
    query: &'a Query,
}

fn most_more(by: Transport) -> u8
    ensures { result ≡ most_more by }
{
    match by {
        Transport::Udp => 3,
        Transport::Tcp => 0,
    }
}

// What came is judged, and behind a reply that doesn't agree further datagrams.
fn judge<'a>(
    asked: &Awaited<'_>,
    most: u8,
    outcome: &Outcome,
    marks: &'a [Mark],
) -> Result<Meant<'a, Option<Answer>>, NoMemory>
    ensures { IfOk result
        (Means (judge most asked.now.word asked.now.query.now outcome.now) marks.now) }
{
    let answer = agreed(asked, outcome)?;
    if answer.is_some() {
        return Ok(Meant::Done(answer, marks));
    }
    if most == 0 {
        return Ok(Meant::Done(answer, marks));
    }
    if !is_got(outcome) {
        return Ok(Meant::Done(answer, marks));
    }
    match take_more(asked.alloc, marks)? {
        Meant::Done(next, left) => judge(asked, most - 1, &next, left),
        Meant::More => Ok(Meant::More),
        Meant::Off(left) => Ok(Meant::Off(left)),
    }
}

// The answer of an outcome, where it agrees.
fn agreed(asked: &Awaited<'_>, outcome: &Outcome) -> Result<Option<Answer>, NoMemory>
    ensures { IfOk result
        (λ answer. answer ≡ agreed_in asked.now.word asked.now.query.now outcome.now) }
{
    let mut slot = Slot::new(asked.alloc);
    if agreed_in(asked.alloc, asked.word, asked.query, outcome, &mut slot)? {
        return Ok(Some(slot.to_answer(asked.alloc)?));
    }
    Ok(None)
}
