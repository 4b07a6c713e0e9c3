ghost use Rattle.std.specs.Prelude.{◌≡◌, ◌<◌, ◌^◌};

use dns_data::{Bytes, Seq};
use std::marker::Model;

/// What is sought in the text of a name, which is in small letters and has its last dot. A pattern
/// is its text where a directive is read, and what finds it where that is made; contracts see the
/// same of both.
#[derive(Debug, Drop)]
pub enum Matcher<P> {
    Exact(Bytes),
    Prefix(Bytes),
    Suffix(Bytes),
    Substring(Bytes),
    Regex(P),
}

/// A pattern, and the text that a name becomes in which it is found.
#[derive(Debug, Drop)]
pub struct Replacing<P> {
    pub pattern: P,
    pub to: Bytes,
}

/// What a rule that renamed the query does to the records of an answer.
#[derive(Debug, Drop)]
pub enum Answering<P> {
    /// Owners that are the name behind the rule get the name before it.
    Auto,
    /// Owners that match are renamed.
    Name(Replacing<P>),
    /// The names in the data of records are renamed where they match.
    Value(Replacing<P>),
}

/// A rule that renames the query, with the bytes that the matched part becomes.
#[derive(Debug, Drop)]
pub struct Renaming<P> {
    pub from: Matcher<P>,
    pub to: Bytes,
    pub answers: Seq<Answering<P>>,
}

/// A TTL in seconds.
#[derive(Debug, Drop)]
pub struct Seconds {
    number: u32,
}

impl Model for Seconds {
    ghost use Rattle.std.specs.Prelude.{ℕ, ◌<◌, ◌^◌};

    ghost Value = { ℕ };

    ghost view = { λ s. s.number };

    ghost invariant = { λ s. s.number < 2 ^ 31 };
}

impl Seconds {
    pub(crate) fn of(number: u32) -> Seconds
        requires { number < 2 ^ 31 }
        ensures { result ≡ number }
    {
        Seconds { number }
    }

    pub(crate) fn number(&self) -> u32
        ensures value { result ≡ self.now }
        ensures small { result < 2 ^ 31 }
    {
        self.number
    }
}

/// A rule of a directive.
#[derive(Debug, Drop)]
pub enum Rule<P> {
    Name(Renaming<P>),
    /// A type, and what it becomes.
    Type(u16, u16),
    Ttl(Matcher<P>, Seconds),
}

/// A rule, and whether the next one is tried behind it.
#[derive(Debug, Drop)]
pub struct Written<P> {
    pub goes_on: bool,
    pub rule: Rule<P>,
}
