ghost use Rattle.std.specs.Prelude.{◌≡◌, ◌↔◌, IsTrue};
ghost use Rattle.std.specs.Cmp.Lexicographic.{pointwise};
ghost use Rattle.outside.specs.Same.{same_entry, same_inner, same_key};

use crate::same::{is_same_answer, is_same_ask, is_same_query};
use crate::{Outcome, Upstream};
use dns_data::{Answer, Bytes, Copies, Name, NoMemory, Query, Seq, Transport};
use std::alloc::Global;
use std::marker::Model;

/// What kind of answer an entry of a cache keeps.
#[derive(Clone, Copy, Debug, PartialEq, Eq)]
pub enum Class {
    Success,
    Denial,
    Servfail,
}

/// Under what a cache keeps an answer: the name in small letters, the type, and the client's DO and
/// CD bits.
#[derive(Debug, Drop)]
pub struct Key {
    pub name: Name,
    pub kind: u16,
    pub dnssec: bool,
    pub cd: bool,
}

impl Key {
    /// Whether two keys are the same, the letters of their names among it.
    pub fn is_same(&self, other: &Key) -> bool
        ensures test { result ≡ same_key self.now other.now }
        ensures same { IsTrue result ↔ (self.now ≡ other.now) }
    {
        self.name.equals(&other.name)
            && self.kind == other.kind
            && self.dnssec == other.dnssec
            && self.cd == other.cd
    }
}

impl Copies for Key {
    fn copy(&self, alloc: Global) -> Result<Key, NoMemory> {
        Ok(Key {
            name: self.name.copy(alloc)?,
            kind: self.kind,
            dnssec: self.dnssec,
            cd: self.cd,
        })
    }
}

/// What the plugins behind a cache took from the outside: a random word, an ask with its outcome, a
/// look for a further datagram of the last ask, or a call of a pool of upstreams, which is a draw
/// with its number and the upstreams that are down, a bit each, or a report of an upstream.
#[derive(Debug, Drop)]
pub enum InnerMark {
    Word(u64),
    Asked(Upstream, Transport, Bytes, Outcome),
    More(Outcome),
    Drawn(u64, u16),
    Reported(u32, bool),
}

impl InnerMark {
    /// Whether two marks are the same, byte for byte.
    pub fn is_same(&self, other: &InnerMark) -> bool
        ensures test { result ≡ same_inner self.now other.now }
        ensures same { IsTrue result ↔ (self.now ≡ other.now) }
    {
        match (self, other) {
            (InnerMark::Word(a), InnerMark::Word(b)) => a == b,
            (InnerMark::Asked(to, by, message, a), InnerMark::Asked(other, over, others, b)) => {
                is_same_ask(
                    *to,
                    *by,
                    message.as_slice(),
                    *other,
                    *over,
                    others.as_slice(),
                ) && a.is_same(b)
            }
            (InnerMark::More(a), InnerMark::More(b)) => a.is_same(b),
            (InnerMark::Drawn(a, c), InnerMark::Drawn(b, d)) => a == b && c == d,
            (InnerMark::Reported(a, c), InnerMark::Reported(b, d)) => a == b && c == d,
            _ => false,
        }
    }
}

impl Copies for InnerMark {
    fn copy(&self, alloc: Global) -> Result<InnerMark, NoMemory> {
        Ok(match self {
            InnerMark::Word(word) => InnerMark::Word(*word),
            InnerMark::Asked(to, by, message, outcome) => {
                InnerMark::Asked(*to, *by, message.copy(alloc)?, outcome.copy(alloc)?)
            }
            InnerMark::More(outcome) => InnerMark::More(outcome.copy(alloc)?),
            InnerMark::Drawn(number, down) => InnerMark::Drawn(*number, *down),
            InnerMark::Reported(upstream, agreed) => InnerMark::Reported(*upstream, *agreed),
        })
    }
}

pub type InnerMarks = Seq<InnerMark>;

/// An answer that a cache keeps, with the query and the marks that led to it.
#[derive(Debug, Drop)]
pub struct Entry {
    pub class: Class,
    /// When it was made, in milliseconds.
    pub born: u64,
    /// How long it lives, in seconds, below 2^31.
    pub life: u32,
    pub answer: Answer,
    pub origin: Query,
    pub inner: InnerMarks,
}

impl Model for Entry {
    ghost use Rattle.std.specs.Prelude.{◌<◌, ◌^◌};
    ghost use Rattle.outside.specs.Entry.{EntryData};

    ghost Value = { EntryData };

    ghost view = { λ e. record {
      class = e.class;
      born = e.born;
      life = e.life;
      answer = e.answer;
      origin = e.origin;
      inner = e.inner;
    } };

    ghost invariant = { λ e. e.life < 2 ^ 31 };
}

impl Entry {
    /// Whether two entries are the same: class, times, answer, query and marks, byte for byte.
    #[tactic(auto, using(crate::specs::SameLaws::exact_inners))]
    pub fn is_same(&self, other: &Entry) -> bool
        ensures test { result ≡ same_entry self.now other.now }
        ensures same { IsTrue result ↔ (self.now ≡ other.now) }
    {
        self.class == other.class
            && self.born == other.born
            && self.life == other.life
            && is_same_answer(&self.answer, &other.answer)
            && is_same_query(&self.origin, &other.origin)
            && are_same_inner(self.inner.as_slice(), other.inner.as_slice())
    }
}

impl Copies for Entry {
    fn copy(&self, alloc: Global) -> Result<Entry, NoMemory> {
        Ok(Entry {
            class: self.class,
            born: self.born,
            life: self.life,
            answer: self.answer.copy(alloc)?,
            origin: self.origin.copy(alloc)?,
            inner: self.inner.copy(alloc)?,
        })
    }
}

// Whether two lists of marks are the same.
fn are_same_inner(marks: &[InnerMark], others: &[InnerMark]) -> bool
    ensures { result ≡ pointwise same_inner marks.now others.now }
{
    let mut rest = others;
    for mark in marks {
        let Some((other, behind)) = rest.split_first() else {
            return false;
        };
        if !mark.is_same(other) {
            return false;
        }
        rest = behind;
    }
    rest.is_empty()
}
