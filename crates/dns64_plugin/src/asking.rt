//! What the rest is asked in place of a query.
ghost use Rattle.std.specs.Prelude.{◌≡◌, OnOk};
ghost use Rattle.dns64_plugin.specs.Dns64.{a_query, named_query};

use dns_data::{Addr, Name, NoMemory, Query, kind};
use std::alloc::Global;

/// Writes over `second` with the same query for addresses of IPv4.
pub fn a_query(query: &Query, second: &mut Query) -> Result<(), NoMemory>
    ensures { OnOk result (second.new ≡ a_query query.now) }
{
    second.name.set(&query.name)?;
    set_beside(query, second);
    second.kind = kind::A;
    Ok(())
}

/// Writes over `inner` with the same query for the name of an address of IPv4.
pub(crate) fn set_named(
    alloc: Global,
    query: &Query,
    addr: u32,
    inner: &mut Query,
) -> Result<(), NoMemory>
    ensures { OnOk result (inner.new ≡ named_query query.now addr) }
{
    inner.name = Name::reverse(alloc, &Addr::V4(addr))?;
    set_beside(query, inner);
    Ok(())
}

// Becomes another query, but for the name.
fn set_beside(query: &Query, other: &mut Query)
    ensures { other.new ≡ record query.now { name = other.old.name } }
{
    other.kind = query.kind;
    other.dnssec = query.dnssec;
    other.cd = query.cd;
    other.rd = query.rd;
    other.edns = query.edns;
    other.client = query.client;
    other.port = query.port;
    other.by = query.by;
    other.local = query.local;
}
