//! What a load came to, counted over what its two sides told.
ghost use Rattle.std.specs.Prelude.{◌≡◌, ◌++◌, ◌≤◌, codes, length, IfOk};
ghost use Rattle.std.specs.Fmt.{decimal};
ghost use Rattle.load_maker.specs.Summary.{counted_line, has_code, is_answer, is_taken};
ghost use Rattle.load_maker.specs.Summary.{answers_in, summary_lines, summary_of, taken_in};

use dns_data::{NoMemory, Text};
use outside::Mark;
use std::alloc::Global;

// RCODEs (RFC 1035, section 4.1.1).
const NOERROR: u8 = 0;

const NXDOMAIN: u8 = 3;

const REFUSED: u8 = 5;

/// How many queries a load's sides took, how many replies of three RCODEs they sent, and how many
/// generations were published.
#[derive(Clone, Copy, Debug, PartialEq, Eq)]
pub struct Summary {
    pub queries: u64,
    pub noerror: u64,
    pub nxdomain: u64,
    pub refused: u64,
    pub published: u64,
}

/// Sums up what the UDP side and the TCP side of a load told.
pub fn sum_up(udp: &[Mark], tcp: &[Mark], published: u64) -> Summary
    ensures { result ≡ summary_of udp.now tcp.now published }
{
    Summary {
        queries: taken(udp) + taken(tcp),
        noerror: answers(udp, NOERROR) + answers(tcp, NOERROR),
        nxdomain: answers(udp, NXDOMAIN) + answers(tcp, NXDOMAIN),
        refused: answers(udp, REFUSED) + answers(tcp, REFUSED),
        published,
    }
}

impl Summary {
    /// Its five lines, without line ends.
    pub fn lines(&self, alloc: Global) -> Result<Vec<Text>, NoMemory>
        ensures { IfOk result (λ lines. lines.items ≡ summary_lines self.now) }
    {
        let mut lines = Vec::with_capacity(alloc, 5)?;
        lines.push(line(alloc, "queries", self.queries)?)?;
        lines.push(line(alloc, "noerror", self.noerror)?)?;
        lines.push(line(alloc, "nxdomain", self.nxdomain)?)?;
        lines.push(line(alloc, "refused", self.refused)?)?;
        lines.push(line(alloc, "published", self.published)?)?;
        Ok(lines)
    }
}

fn line(alloc: Global, word: &str, count: u64) -> Result<Text, NoMemory>
    ensures { IfOk result (λ line. line ≡ counted_line word.now count) }
{
    Ok(Text::of(format!(in alloc; "{word} {count}")?))
}

// How many datagrams were taken.
fn taken(journal: &[Mark]) -> u64
    ensures value { result ≡ taken_in journal.now }
    ensures few { result ≤ length journal.now }
{
    let mut count = 0;
    for mark in journal {
        if is_taken(mark) {
            count += 1;
        }
    }
    count
}

// How many replies of an RCODE were sent.
fn answers(journal: &[Mark], code: u8) -> u64
    ensures value { result ≡ answers_in code journal.now }
    ensures few { result ≤ length journal.now }
{
    let mut count = 0;
    for mark in journal {
        if is_answer(mark, code) {
            count += 1;
        }
    }
    count
}

fn is_taken(mark: &Mark) -> bool
    ensures { result ≡ is_taken mark.now }
{
    match mark {
        Mark::Got(_) => true,
        _ => false,
    }
}

fn is_answer(mark: &Mark, code: u8) -> bool
    ensures { result ≡ is_answer code mark.now }
{
    match mark {
        Mark::Sent(reply, true) => has_code(reply.as_slice(), code),
        _ => false,
    }
}

// Whether a reply has the RCODE: the lower half of its fourth byte.
fn has_code(reply: &[u8], code: u8) -> bool
    ensures { result ≡ has_code code reply.now }
{
    match reply.get(3) {
        Some(byte) => *byte % 16 == code,
        None => false,
    }
}
