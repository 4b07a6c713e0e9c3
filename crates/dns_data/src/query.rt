ghost use Rattle.std.specs.Prelude.{◌≡◌, [], false};
ghost use Rattle.dns_addr.specs.declared.addr.Addr.TheVariants as addr;
ghost use Rattle.dns_data.specs.declared.kind.TheConstants as kinds;
ghost use Rattle.dns_data.specs.declared.message.Transport.TheVariants as transport;

use crate::{Addr, Copies, Name, NoMemory, Transport, kind};
use std::alloc::Global;

/// What a chain of plugins is asked: the question, what the client set, and from where it came.
#[derive(Debug, Drop)]
pub struct Query {
    /// The name, with the client's letters.
    pub name: Name,
    /// The type of the question (QTYPE).
    pub kind: u16,
    /// The client's DO bit (RFC 3225).
    pub dnssec: bool,
    pub cd: bool,
    pub rd: bool,
    /// Whether the query had an OPT record (RFC 6891).
    pub edns: bool,
    pub client: Addr,
    /// The client's port.
    pub port: u16,
    pub by: Transport,
    /// The port of the server at which the query came.
    pub local: u16,
}

impl Query {
    /// A query for the root, which is there to be written over.
    pub fn blank(alloc: Global) -> Query
        ensures { result ≡ record {
          name = [];
          kind = kinds.A;
          dnssec = false;
          cd = false;
          rd = false;
          edns = false;
          client = addr.V4 0;
          port = 0;
          by = transport.Udp;
          local = 0;
        } }
    {
        Query {
            name: Name::root(alloc),
            kind: kind::A,
            dnssec: false,
            cd: false,
            rd: false,
            edns: false,
            client: Addr::V4(0),
            port: 0,
            by: Transport::Udp,
            local: 0,
        }
    }
}

impl Copies for Query {
    fn copy(&self, alloc: Global) -> Result<Query, NoMemory> {
        Ok(Query {
            name: self.name.copy(alloc)?,
            kind: self.kind,
            dnssec: self.dnssec,
            cd: self.cd,
            rd: self.rd,
            edns: self.edns,
            client: self.client,
            port: self.port,
            by: self.by,
            local: self.local,
        })
    }
}
