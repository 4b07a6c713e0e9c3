//! What an upstream is asked.
ghost use Rattle.std.specs.Prelude.{◌≡◌, IfOk};
ghost use Rattle.dns_wire.specs.Spells.{Spells};
ghost use Rattle.forward_plugin.specs.Forward.{ask_bytes, ask_of, opt_of};

use dns_data::limit::{EDNS_BYTES, UDP_BYTES};
use dns_data::{Buffer, NoMemory, Opt, Query, class, opcode, rcode};
use dns_wire::Flags;
use dns_write::{MessageParts, write_parts};
use std::alloc::Global;

/// The bytes of an ask whose id this word gives.
pub fn ask_bytes(alloc: Global, word: u64, query: &Query) -> Result<Buffer, NoMemory>
    ensures text { IfOk result (λ bytes. bytes ≡ ask_bytes word query.now) }
    ensures spelt { IfOk result (λ bytes. Spells bytes (ask_of word query.now)) }
{
    let parts = MessageParts {
        flags: Flags {
            id: (word % 65_536) as u16,
            qr: false,
            opcode: opcode::QUERY,
            aa: false,
            tc: false,
            rd: query.rd,
            ra: false,
            ad: false,
            cd: query.cd,
            rcode: rcode::NOERROR,
        },
        name: &query.name,
        kind: query.kind,
        class: class::IN,
        answer: &[],
        authority: &[],
        additional: &[],
        opt: opt_of(query),
    };
    write_parts(alloc, Buffer::new(alloc), &parts, UDP_BYTES)
}

fn opt_of(query: &Query) -> Option<Opt>
    ensures { result ≡ opt_of query.now }
{
    if query.edns {
        return Some(Opt {
            size: EDNS_BYTES,
            ext: 0,
            version: 0,
            dnssec: query.dnssec,
        });
    }
    None
}
