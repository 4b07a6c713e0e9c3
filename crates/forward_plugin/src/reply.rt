//! Whether a reply answers an ask, and its answer.
ghost use Rattle.std.specs.Prelude.{◌≡◌, OnOk};
ghost use Rattle.forward_plugin.specs.Judged.{Judges, JudgesOutcome};
ghost use Rattle.forward_plugin.specs.Replies.{agrees, answer_in, is_got, is_plain};

use dns_data::{Message, NoMemory, Opt, Query, Slot, class};
use dns_wire::WireFault;
use message_decoding::read;
use outside::Outcome;
use std::alloc::Global;

/// Whether an outcome is a reply that agrees. Its answer is then in the slot, which else stays.
pub fn agreed_in(
    alloc: Global,
    word: u64,
    query: &Query,
    outcome: &Outcome,
    slot: &mut Slot,
) -> Result<bool, NoMemory>
    ensures { JudgesOutcome word query.now outcome.now slot.old slot.new result }
{
    match outcome {
        Outcome::Got(bytes) => agreed_bytes(alloc, word, query, bytes.as_slice(), slot),
        Outcome::Silence | Outcome::Failed | Outcome::NoMemory => Ok(false),
    }
}

fn agreed_bytes(
    alloc: Global,
    word: u64,
    query: &Query,
    bytes: &[u8],
    slot: &mut Slot,
) -> Result<bool, NoMemory>
    ensures { Judges word query.now bytes.now slot.old slot.new result }
{
    match read(alloc, bytes) {
        Ok(message) => {
            if agrees(word, query, &message) {
                take_answer(alloc, &message, slot)?;
                return Ok(true);
            }
            Ok(false)
        }
        Err(fault) => match fault {
            WireFault::Bad => Ok(false),
            WireFault::NoMemory => Err(NoMemory),
        },
    }
}

// Copies the answer of a reply into the slot.
fn take_answer(alloc: Global, message: &Message, slot: &mut Slot) -> Result<(), NoMemory>
    ensures { OnOk result (slot.new ≡ answer_in message.now) }
{
    slot.clear();
    slot.rcode = message.rcode;
    slot.aa = message.aa;
    slot.ra = message.ra;
    slot.tc = message.tc;
    slot.answer.push_all(alloc, message.answer.as_slice())?;
    slot.authority
        .push_all(alloc, message.authority.as_slice())?;
    slot.additional
        .push_all(alloc, message.additional.as_slice())
}

fn agrees(word: u64, query: &Query, message: &Message) -> bool
    ensures { result ≡ agrees word query.now message.now }
{
    u64::from(message.id) == word % 65_536
        && message.question.name.same(&query.name)
        && message.question.kind == query.kind
        && message.question.class == class::IN
        && is_plain(&message.opt)
}

fn is_plain(opt: &Option<Opt>) -> bool
    ensures { result ≡ is_plain opt.now }
{
    match opt {
        None => true,
        Some(opt) => opt.ext == 0,
    }
}

/// Whether an outcome is a reply.
pub fn is_got(outcome: &Outcome) -> bool
    ensures { result ≡ is_got outcome.now }
{
    match outcome {
        Outcome::Got(_) => true,
        Outcome::Silence | Outcome::Failed | Outcome::NoMemory => false,
    }
}
