ghost use Rattle.dns_data.specs.declared.limit.TheConstants as limits;
ghost use Rattle.std.specs.Prelude.{◌≡◌, ◌≤◌, ◌<◌, IfOk};
ghost use Rattle.chain_meaning.specs.Serving.{header_reply, is_known_version, limit_of, opt_reply};
ghost use Rattle.chain_meaning.specs.Serving.{query_of, reply_message, upper_code};
ghost use Rattle.dns_data.specs.Message.{AreCodes};
ghost use Rattle.dns_wire.specs.{asked_by};
ghost use Rattle.dns_write.specs.Assembled.{message_of};

use dns_data::{
    Buffer, NoMemory, Opt, Query, Question, Slot, Transport, class, limit, opcode, rcode,
};
use dns_wire::{Asked, AskedBeside, Flags, Head};
use dns_write::MessageParts;
use outside::Datagram;
use std::alloc::Global;

/// A header alone, for a query that wasn't read.
#[tactic(auto, unfolding(chain_meaning::specs::Serving::header_reply))]
pub fn header_reply(alloc: Global, head: Head, rcode: u8) -> Result<Buffer, NoMemory>
    requires { head.opcode < limits.CODE_END }
    ensures { IfOk result (λ bytes. bytes ≡ header_reply head.id head.opcode head.rd rcode) }
{
    let [high, low] = head.id.to_be_bytes();
    let flags = 128 + 8 * head.opcode + u8::from(head.rd);
    Buffer::from_slice(alloc, &[high, low, flags, rcode, 0, 0, 0, 0, 0, 0, 0, 0])
}

/// As many bytes as a reply may have.
pub fn limit_of(by: Transport, opt: Option<Opt>) -> u32
    ensures value { result ≡ limit_of by opt }
    ensures range { (limits.UDP_BYTES ≤ result) × (result ≤ limits.MESSAGE_BYTES) }
{
    match by {
        Transport::Tcp => limit::MESSAGE_BYTES,
        Transport::Udp => match opt {
            Some(opt) => u32::from(opt.size).max(limit::UDP_BYTES),
            None => limit::UDP_BYTES,
        },
    }
}

/// Whether the query has no OPT record or one of version 0.
pub fn is_known_version(opt: Option<Opt>) -> bool
    ensures { result ≡ is_known_version opt }
{
    match opt {
        Some(opt) => opt.version == 0,
        None => true,
    }
}

/// The upper bits of the RCODE that a query gets.
pub fn upper_code(opt: Option<Opt>) -> u8
    ensures { result ≡ upper_code opt }
{
    if is_known_version(opt) {
        return 0;
    }
    rcode::BADVERS_UPPER
}

/// The OPT record of a reply, where the query had one.
pub fn opt_reply(ext: u8, opt: Option<Opt>) -> Option<Opt>
    ensures { result ≡ opt_reply ext opt }
{
    match opt {
        Some(opt) => Some(Opt {
            size: limit::EDNS_BYTES,
            ext,
            version: 0,
            dnssec: opt.dnssec,
        }),
        None => None,
    }
}

/// The query that a chain is asked. The name is moved and not copied.
pub fn query_of(datagram: &Datagram, asked: Asked) -> Query
    ensures { result ≡ query_of datagram.now asked }
{
    let (cd, rd) = (asked.cd, asked.rd);
    let (edns, dnssec) = match asked.opt {
        Some(opt) => (true, opt.dnssec),
        None => (false, false),
    };
    let Question {
        name,
        kind,
        class: _,
    } = asked.question;
    Query {
        name,
        kind,
        dnssec,
        cd,
        rd,
        edns,
        client: datagram.client,
        port: datagram.port,
        by: datagram.by,
        local: datagram.local,
    }
}

/// Becomes the query that a chain is asked, whose name stands there already.
#[inline]
pub fn fill_query(query: &mut Query, datagram: &Datagram, beside: AskedBeside)
    ensures { query.new ≡ query_of datagram.now (asked_by query.old.name beside) }
{
    let (edns, dnssec) = match beside.opt {
        Some(opt) => (true, opt.dnssec),
        None => (false, false),
    };
    query.kind = beside.kind;
    query.dnssec = dnssec;
    query.cd = beside.cd;
    query.rd = beside.rd;
    query.edns = edns;
    query.client = datagram.client;
    query.port = datagram.port;
    query.by = datagram.by;
    query.local = datagram.local;
}

/// The message that answers a query of this id, class and OPT record.
#[inline]
pub fn reply_message<'a>(
    id: u16,
    class: u16,
    opt: Option<Opt>,
    query: &'a Query,
    answer: &'a Slot,
) -> MessageParts<'a>
    ensures message { message_of result ≡ reply_message id class opt query.now answer.now }
    ensures codes { AreCodes result.flags.opcode result.flags.rcode }
{
    MessageParts {
        flags: Flags {
            id,
            qr: true,
            opcode: opcode::QUERY,
            aa: answer.aa,
            tc: answer.tc,
            rd: query.rd,
            ra: answer.ra,
            ad: false,
            cd: query.cd,
            rcode: answer.rcode,
        },
        name: &query.name,
        kind: query.kind,
        class,
        answer: answer.answer.as_slice(),
        authority: answer.authority.as_slice(),
        additional: answer.additional.as_slice(),
        opt,
    }
}
