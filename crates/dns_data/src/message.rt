use crate::{Name, Records};
use std::marker::Model;

/// How a message travels.
#[derive(Clone, Copy, Debug, PartialEq, Eq)]
pub enum Transport {
    Udp,
    Tcp,
}

/// A question (RFC 1035, section 4.1.2). `kind` is QTYPE.
#[derive(Debug, Drop)]
pub struct Question {
    pub name: Name,
    pub kind: u16,
    pub class: u16,
}

/// An OPT record (RFC 6891, section 6.1): the payload size in bytes, the upper 8 bits of the
/// extended RCODE, the version, and the DO bit.
#[derive(Clone, Copy, Debug, PartialEq, Eq)]
pub struct Opt {
    pub size: u16,
    pub ext: u8,
    pub version: u8,
    pub dnssec: bool,
}

/// A message with one question (RFC 1035, section 4.1). `additional` doesn't hold the OPT record.
#[derive(Debug, Drop)]
pub struct Message {
    pub id: u16,
    pub qr: bool,
    /// Below 16.
    pub opcode: u8,
    pub aa: bool,
    pub tc: bool,
    pub rd: bool,
    pub ra: bool,
    pub ad: bool,
    pub cd: bool,
    /// Below 16.
    pub rcode: u8,
    pub question: Question,
    pub answer: Records,
    pub authority: Records,
    pub additional: Records,
    pub opt: Option<Opt>,
}

impl Model for Message {
    ghost use Rattle.dns_data.specs.Message.{MessageData, AreCodes};

    ghost Value = { MessageData };

    ghost view = { λ m. record {
      id = m.id;
      qr = m.qr;
      opcode = m.opcode;
      aa = m.aa;
      tc = m.tc;
      rd = m.rd;
      ra = m.ra;
      ad = m.ad;
      cd = m.cd;
      rcode = m.rcode;
      question = m.question;
      answer = m.answer;
      authority = m.authority;
      additional = m.additional;
      opt = m.opt;
    } };

    ghost invariant = { λ m. AreCodes m.opcode m.rcode };
}
