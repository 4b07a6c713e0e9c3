ghost use Rattle.std.specs.Prelude.{◌≡◌, ◌∷◌, ◌≤◌, ◌<◌, [], drop, length, IfNone, IfOk};
ghost use Rattle.std.specs.Prelude.{MatchOption};
ghost use Rattle.dns_data.specs.{IsFormed};
ghost use Rattle.dns_data.specs.declared.limit.TheConstants as limits;
ghost use Rattle.record_text.specs.Fields.{Answers, Takes, ended, kind_in, name_in, string_in};
ghost use Rattle.record_text.specs.Fields.{tag_in, ttl_in, u16_in, u32_in, u8_in, v4_in, v6_in};

use crate::string::{read_string, read_tag};
use crate::{Place, RecordFault, Word, read_name, read_ttl};
use dns_data::{Addr, Bytes, Name, Rdata};
use numbers::read_below;
use std::alloc::Global;
use std::marker::Model;
use type_names::read_kind;

/// The words of a record that are left to be read. Contracts see their list.
#[derive(Drop)]
pub(crate) struct Fields<'w, 'a> {
    words: &'w [Word<'a>],
}

impl<'w, 'a> Model for Fields<'w, 'a> {
    ghost use Rattle.std.specs.Prelude.{List};
    ghost use Rattle.record_text.specs.Words.{WordData};

    ghost Value = { List WordData };

    ghost view = { λ f. f.words.now };
}

impl<'w, 'a> Fields<'w, 'a> {
    pub fn new(words: &'w [Word<'a>]) -> Fields<'w, 'a>
        ensures { result ≡ words.now }
    {
        Fields { words }
    }

    /// The words that are left.
    pub fn rest(&self) -> &'w [Word<'a>]
        ensures { result.now ≡ self.now }
    {
        self.words
    }

    fn next(&mut self) -> Option<&'w Word<'a>>
        ensures value { MatchOption result
            (self.old ≡ []) (λ word. self.old ≡ word.now ∷ self.new) }
        ensures end { IfNone result (self.new ≡ []) }
    {
        let words = self.words;
        if words.is_empty() {
            return None;
        }
        self.words = behind_first(words);
        Some(&words[0])
    }

    pub fn u8(&mut self) -> Result<u8, RecordFault>
        ensures { Takes u8_in self.old self.new result }
    {
        let Some(word) = self.next() else {
            return Err(RecordFault::Bad);
        };
        match read_below(word.text, 256) {
            Some(number) => Ok(number as u8),
            None => Err(RecordFault::Bad),
        }
    }

    pub fn u16(&mut self) -> Result<u16, RecordFault>
        ensures { Takes u16_in self.old self.new result }
    {
        let Some(word) = self.next() else {
            return Err(RecordFault::Bad);
        };
        match read_below(word.text, 65536) {
            Some(number) => Ok(number as u16),
            None => Err(RecordFault::Bad),
        }
    }

    pub fn u32(&mut self) -> Result<u32, RecordFault>
        ensures { Takes u32_in self.old self.new result }
    {
        let Some(word) = self.next() else {
            return Err(RecordFault::Bad);
        };
        match read_below(word.text, 4294967296) {
            Some(number) => Ok(number as u32),
            None => Err(RecordFault::Bad),
        }
    }

    pub fn ttl(&mut self) -> Result<u32, RecordFault>
        ensures { Takes ttl_in self.old self.new result }
    {
        let Some(word) = self.next() else {
            return Err(RecordFault::Bad);
        };
        match read_ttl(word.text) {
            Some(ttl) => Ok(ttl),
            None => Err(RecordFault::Bad),
        }
    }

    pub fn kind(&mut self) -> Result<u16, RecordFault>
        ensures { Takes kind_in self.old self.new result }
    {
        let Some(word) = self.next() else {
            return Err(RecordFault::Bad);
        };
        match read_kind(word.text) {
            Some(kind) => Ok(kind),
            None => Err(RecordFault::Bad),
        }
    }

    pub fn v4(&mut self) -> Result<u32, RecordFault>
        ensures { Takes v4_in self.old self.new result }
    {
        let Some(word) = self.next() else {
            return Err(RecordFault::Bad);
        };
        match Addr::read(word.text) {
            Some(Addr::V4(number)) => Ok(number),
            Some(Addr::V6(_)) => Err(RecordFault::Bad),
            None => Err(RecordFault::Bad),
        }
    }

    pub fn v6(&mut self) -> Result<u128, RecordFault>
        ensures { Takes v6_in self.old self.new result }
    {
        let Some(word) = self.next() else {
            return Err(RecordFault::Bad);
        };
        match Addr::read(word.text) {
            Some(Addr::V6(number)) => Ok(number),
            Some(Addr::V4(_)) => Err(RecordFault::Bad),
            None => Err(RecordFault::Bad),
        }
    }

    pub fn name(&mut self, alloc: Global, place: &Place<'_>) -> Result<Name, RecordFault>
        ensures { Takes (name_in place.now) self.old self.new result }
    {
        let Some(word) = self.next() else {
            return Err(RecordFault::Bad);
        };
        read_name(alloc, word, place)
    }

    pub fn string(&mut self, alloc: Global) -> Result<Bytes, RecordFault>
        ensures value { Takes string_in self.old self.new result }
        ensures short { IfOk result (λ bytes. length bytes ≤ limits.STRING_BYTES) }
    {
        let Some(word) = self.next() else {
            return Err(RecordFault::Bad);
        };
        read_string(alloc, word.text)
    }

    pub fn tag(&mut self, alloc: Global) -> Result<Bytes, RecordFault>
        ensures value { Takes tag_in self.old self.new result }
        ensures some { IfOk result (λ tag. 1 ≤ length tag) }
        ensures short { IfOk result (λ tag. length tag ≤ limits.STRING_BYTES) }
    {
        let Some(word) = self.next() else {
            return Err(RecordFault::Bad);
        };
        read_tag(alloc, word.text)
    }

    /// The data, where no word is left.
    pub fn end(self, made: Rdata) -> Result<Rdata, RecordFault>
        requires form { IsFormed made }
        ensures value { Answers (ended made self.entry) result }
        ensures form { IfOk result (λ d. IsFormed d) }
    {
        if 0 < self.words.len() {
            return Err(RecordFault::Bad);
        }
        Ok(made)
    }
}

// The words behind the first.
fn behind_first<'w, 'a>(words: &'w [Word<'a>]) -> &'w [Word<'a>]
    requires { 0 < length words.now }
    ensures { result.now ≡ drop 1 words.now }
{
    &words[1..]
}
