use crate::{Copies, NoMemory, Records};
use std::alloc::Global;
use std::marker::Model;

/// What a chain of plugins answers: the RCODE, the flags AA, RA and TC, and the records by section.
#[derive(Debug, Drop)]
pub struct Answer {
    /// Below 16 (RFC 1035, section 4.1.1).
    pub rcode: u8,
    pub aa: bool,
    pub ra: bool,
    pub tc: bool,
    pub answer: Records,
    pub authority: Records,
    pub additional: Records,
}

impl Model for Answer {
    ghost use Rattle.std.specs.Prelude.{◌<◌};
    ghost use Rattle.dns_data.specs.Message.{AnswerData};

    ghost Value = { AnswerData };

    ghost view = { λ a. record {
      rcode = a.rcode;
      aa = a.aa;
      ra = a.ra;
      tc = a.tc;
      answer = a.answer;
      authority = a.authority;
      additional = a.additional;
    } };

    ghost invariant = { λ a. a.rcode < 16 };
}

impl Copies for Answer {
    fn copy(&self, alloc: Global) -> Result<Answer, NoMemory> {
        Ok(Answer {
            rcode: self.rcode,
            aa: self.aa,
            ra: self.ra,
            tc: self.tc,
            answer: self.answer.copy(alloc)?,
            authority: self.authority.copy(alloc)?,
            additional: self.additional.copy(alloc)?,
        })
    }
}
