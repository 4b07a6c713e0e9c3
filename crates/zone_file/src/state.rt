ghost use Rattle.std.specs.Prelude.{◌≡◌, ◌<◌, ◌^◌, option_map, IfOk, OnOk};
ghost use Rattle.record_text.specs.Fields.{Answers};
ghost use Rattle.zone_file.specs.Zones.{Agrees, HasTtls, IsLawful, begins_dollar, by_record};
ghost use Rattle.zone_file.specs.Zones.{control, moved, of_owner, only, origin_statement, place_in};
ghost use Rattle.zone_file.specs.Zones.{start, statement_of, syntax, ttl_in, ttl_statement};

use crate::entry::Entry;
use crate::{ZoneFault, ZoneWhy};
use dns_data::{Copies, Name, NoMemory, Record};
use record_text::{Form, Place, RecordFault, Word, read_name, read_of_owner, read_owned, read_ttl};
use std::alloc::Global;

/// What the entries so far say of those below.
#[derive(Drop)]
pub(crate) struct Reading {
    pub origin: Name,
    /// The TTL of `$TTL`.
    pub default: Option<u32>,
    /// The owner and the TTL of the record before.
    pub owner: Option<Name>,
    pub ttl: Option<u32>,
}

/// What an entry says.
#[derive(Drop)]
pub(crate) enum Statement {
    Origin(Name),
    Ttl(u32),
    Found(Record),
}

impl Reading {
    pub fn new(alloc: Global, origin: &Name) -> Result<Reading, NoMemory>
        ensures value { IfOk result (λ reading. reading ≡ start origin.now) }
        ensures ttls { IfOk result (λ reading. HasTtls reading) }
    {
        Ok(Reading {
            origin: origin.copy(alloc)?,
            default: None,
            owner: None,
            ttl: None,
        })
    }

    /// What an entry says.
    #[tactic(auto, unfolding(crate::specs::Zones::statement_of))]
    pub fn statement(&self, alloc: Global, entry: &Entry<'_>) -> Result<Statement, ZoneFault>
        requires { HasTtls self.now }
        ensures value { Agrees (statement_of self.now entry.now) result }
        ensures lawful { IfOk result (λ said. IsLawful said) }
    {
        let words = entry.words.as_slice();
        let Some((word, behind)) = words.split_first() else {
            return self.record_in(alloc, entry);
        };
        if !entry.indented && begins_dollar(word.text) {
            return self.control(alloc, entry.line, word.text, behind);
        }
        self.record_in(alloc, entry)
    }

    /// Goes on behind an entry that says this.
    pub fn follow(&mut self, alloc: Global, said: &Statement) -> Result<(), NoMemory>
        requires ttls { HasTtls self.old }
        requires lawful { IsLawful said.now }
        ensures value { OnOk result (self.new ≡ moved self.old said.now) }
        ensures ttls { OnOk result (HasTtls self.new) }
    {
        match said {
            Statement::Origin(origin) => self.origin.set(origin)?,
            Statement::Ttl(ttl) => self.default = Some(*ttl),
            Statement::Found(found) => {
                self.owner = Some(found.owner.copy(alloc)?);
                self.ttl = Some(found.ttl);
            }
        }
        Ok(())
    }

    // What a line that begins with `$` says.
    fn control(
        &self,
        alloc: Global,
        line: u32,
        directive: &[u8],
        words: &[Word<'_>],
    ) -> Result<Statement, ZoneFault>
        ensures value { Agrees (control self.now line directive.now words.now) result }
        ensures lawful { IfOk result (λ said. IsLawful said) }
    {
        if directive == b"$ORIGIN".as_slice() {
            return self.origin_in(alloc, line, words);
        }
        if directive == b"$TTL".as_slice() {
            return ttl_in(line, words);
        }
        Err(ZoneFault::Bad {
            line,
            why: ZoneWhy::Control,
        })
    }

    // The name behind `$ORIGIN`.
    fn origin_in(
        &self,
        alloc: Global,
        line: u32,
        words: &[Word<'_>],
    ) -> Result<Statement, ZoneFault>
        ensures value { Agrees (origin_statement self.now line words.now) result }
        ensures lawful { IfOk result (λ said. IsLawful said) }
    {
        let Some(word) = only_word(words) else {
            return Err(syntax(line, RecordFault::Bad));
        };
        match read_name(alloc, word, &self.place()) {
            Ok(name) => Ok(Statement::Origin(name)),
            Err(fault) => Err(syntax(line, fault)),
        }
    }

    // The record of an entry.
    fn record_in(&self, alloc: Global, entry: &Entry<'_>) -> Result<Statement, ZoneFault>
        requires { HasTtls self.now }
        ensures value { Agrees (by_record self.now entry.now) result }
        ensures lawful { IfOk result (λ said. IsLawful said) }
    {
        let words = entry.words.as_slice();
        let read = if entry.indented {
            self.of_owner(alloc, words)
        } else {
            read_owned(alloc, words, &self.place(), self.ttl())
        };
        match read {
            Ok(found) => Ok(Statement::Found(found)),
            Err(fault) => Err(syntax(entry.line, fault)),
        }
    }

    // The record of words behind the owner of the record before.
    fn of_owner(&self, alloc: Global, words: &[Word<'_>]) -> Result<Record, RecordFault>
        requires { HasTtls self.now }
        ensures { Answers (of_owner self.now words.now self.now.owner) result }
    {
        let Some(owner) = &self.owner else {
            return Err(RecordFault::Bad);
        };
        let owner = owner.copy(alloc)?;
        read_of_owner(alloc, words, &self.place(), self.ttl(), owner)
    }

    fn place(&self) -> Place<'_>
        ensures { result ≡ place_in self.now }
    {
        Place {
            origin: &self.origin,
            form: Form::ZoneFile,
        }
    }

    // The TTL of a record that has none.
    fn ttl(&self) -> u32
        requires { HasTtls self.now }
        ensures value { result ≡ ttl_in self.now }
        ensures below { result < 2 ^ 31 }
    {
        match self.default {
            Some(ttl) => ttl,
            None => self.ttl.unwrap_or(3600),
        }
    }
}

// The TTL behind `$TTL`.
fn ttl_in(line: u32, words: &[Word<'_>]) -> Result<Statement, ZoneFault>
    ensures value { Agrees (ttl_statement line words.now) result }
    ensures lawful { IfOk result (λ said. IsLawful said) }
{
    let Some(word) = only_word(words) else {
        return Err(syntax(line, RecordFault::Bad));
    };
    match read_ttl(word.text) {
        Some(ttl) => Ok(Statement::Ttl(ttl)),
        None => Err(syntax(line, RecordFault::Bad)),
    }
}

// The word, where there is one alone.
fn only_word<'w, 'a>(words: &'w [Word<'a>]) -> Option<&'w Word<'a>>
    ensures { option_map (λ word. word.now) result ≡ only words.now }
{
    if words.len() == 1 {
        return Some(&words[0]);
    }
    None
}

fn syntax(line: u32, fault: RecordFault) -> ZoneFault
    ensures { result ≡ syntax line fault }
{
    match fault {
        RecordFault::Bad => ZoneFault::Bad {
            line,
            why: ZoneWhy::Syntax,
        },
        RecordFault::NoMemory => ZoneFault::NoMemory,
    }
}

fn begins_dollar(text: &[u8]) -> bool
    ensures { result ≡ begins_dollar text.now }
{
    0 < text.len() && text[0] == b'$'
}
