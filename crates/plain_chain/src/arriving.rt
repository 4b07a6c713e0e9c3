//! What decides for a datagram in front of any chain.

ghost use Rattle.std.specs.Prelude.{◌<◌, ◌^◌, length};
ghost use Rattle.plain_chain.specs.Course.{Arrives, IsCourse};

use chain_build::{header_reply, is_known_version};
use dns_data::{Blocks, Buffer, NoMemory, Opt, Query, class, rcode};
use dns_wire::{Asked, QueryFault, read_asked};
use outside::Datagram;
use plugin_api::pick;
use std::alloc::Global;

/// What came by a datagram.
#[derive(Drop)]
pub enum Arrival {
    /// Fewer bytes than a header has.
    Short,
    /// A response.
    Response,
    /// What is replied to by this header alone.
    Header(Buffer),
    /// A query.
    Asks(Asked),
}

/// What comes by a datagram.
pub fn arrive(alloc: Global, datagram: &Datagram) -> Result<Arrival, NoMemory>
    ensures { Arrives datagram.now result }
{
    match read_asked(alloc, datagram.bytes.as_slice()) {
        Ok(asked) => Ok(Arrival::Asks(asked)),
        Err(QueryFault::Short) => Ok(Arrival::Short),
        Err(QueryFault::Response) => Ok(Arrival::Response),
        Err(QueryFault::NotImp(head)) => {
            Ok(Arrival::Header(header_reply(alloc, head, rcode::NOTIMP)?))
        }
        Err(QueryFault::FormErr(head)) => {
            Ok(Arrival::Header(header_reply(alloc, head, rcode::FORMERR)?))
        }
        Err(QueryFault::NoMemory) => Err(NoMemory),
    }
}

/// What decides for a query.
#[derive(Clone, Copy, Debug, PartialEq, Eq)]
pub enum Course {
    /// Its version of EDNS.
    Version,
    /// Its class.
    Class,
    /// That no block is for its name.
    NoBlock,
    /// The block of this number.
    Block(u32),
}

/// What decides for a query with this OPT record and class.
pub fn course_of(blocks: &Blocks, opt: Option<Opt>, class: u16, query: &Query) -> Course
    requires { length blocks.now < 2 ^ 32 }
    ensures { IsCourse opt class blocks.now query.now result }
{
    if !is_known_version(opt) {
        return Course::Version;
    }
    if class != class::IN {
        return Course::Class;
    }
    match pick(blocks, query.local, &query.name) {
        Some(number) => Course::Block(number),
        None => Course::NoBlock,
    }
}
