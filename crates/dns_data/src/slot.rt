//! Answers in the room of earlier ones.
ghost use Rattle.std.specs.Prelude.{◌≡◌, ◌<◌, IfOk, OnOk};
ghost use Rattle.dns_data.specs.Message.{no_answer, nothing};
ghost use Rattle.dns_data.specs.declared.limit.TheConstants as limits;

use crate::{Answer, NoMemory, RecordRoom, rcode};
use std::alloc::Global;
use std::marker::Model;

/// An answer that is made in the room of earlier ones. Contracts see it as they see an `Answer`.
#[derive(Debug, Drop)]
pub struct Slot {
    /// Below 16 (RFC 1035, section 4.1.1).
    pub rcode: u8,
    pub aa: bool,
    pub ra: bool,
    pub tc: bool,
    pub answer: RecordRoom,
    pub authority: RecordRoom,
    pub additional: RecordRoom,
}

impl Model for Slot {
    ghost use Rattle.std.specs.Prelude.{◌<◌};
    ghost use Rattle.dns_data.specs.Message.{AnswerData};

    ghost Value = { AnswerData };

    ghost view = { λ s. record {
      rcode = s.rcode;
      aa = s.aa;
      ra = s.ra;
      tc = s.tc;
      answer = s.answer;
      authority = s.authority;
      additional = s.additional;
    } };

    ghost invariant = { λ s. s.rcode < 16 };
}

impl Slot {
    /// NOERROR without flags and records.
    pub fn new(alloc: Global) -> Slot
        ensures { result ≡ no_answer }
    {
        Slot {
            rcode: rcode::NOERROR,
            aa: false,
            ra: false,
            tc: false,
            answer: RecordRoom::new(alloc),
            authority: RecordRoom::new(alloc),
            additional: RecordRoom::new(alloc),
        }
    }

    /// Becomes NOERROR without flags and records, and keeps the room.
    #[inline]
    pub fn clear(&mut self)
        ensures { self.new ≡ no_answer }
    {
        self.rcode = rcode::NOERROR;
        self.aa = false;
        self.ra = false;
        self.tc = false;
        self.answer.clear();
        self.authority.clear();
        self.additional.clear();
    }

    /// Becomes an RCODE without records. Nothing has been written since it was cleared.
    #[inline]
    pub fn set_code(&mut self, rcode: u8)
        requires small { rcode < limits.CODE_END }
        requires clear { self.old ≡ no_answer }
        ensures { self.new ≡ nothing rcode }
    {
        self.rcode = rcode;
    }

    /// Becomes a copy of an answer.
    pub fn fill(&mut self, alloc: Global, answer: &Answer) -> Result<(), NoMemory>
        ensures { OnOk result (self.new ≡ answer.now) }
    {
        self.clear();
        self.rcode = answer.rcode;
        self.aa = answer.aa;
        self.ra = answer.ra;
        self.tc = answer.tc;
        self.answer.push_all(alloc, answer.answer.as_slice())?;
        self.authority.push_all(alloc, answer.authority.as_slice())?;
        self.additional
            .push_all(alloc, answer.additional.as_slice())
    }

    /// A copy that outlives the query.
    pub fn to_answer(&self, alloc: Global) -> Result<Answer, NoMemory>
        ensures { IfOk result (λ answer. answer ≡ self.now) }
    {
        Ok(Answer {
            rcode: self.rcode,
            aa: self.aa,
            ra: self.ra,
            tc: self.tc,
            answer: self.answer.to_records(alloc)?,
            authority: self.authority.to_records(alloc)?,
            additional: self.additional.to_records(alloc)?,
        })
    }
}
