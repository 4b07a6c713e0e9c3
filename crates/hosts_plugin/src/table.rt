ghost use Rattle.std.specs.Prelude.{◌≡◌, IfOk};
ghost use Rattle.hosts_plugin.specs.Hosts.{listings_in};
ghost use Rattle.hosts_plugin.specs.Made.{IsTable};

use crate::answering::pointers_of;
use crate::file::add_file;
use crate::index::{Index, by_address, by_name};
use crate::listing::{Listing, add_inline};
use dns_data::{Line, NoMemory, Record, Seq};
use std::alloc::Global;

/// What a file and lines list, and where it is found by name and by address.
#[derive(Debug, Drop)]
pub struct HostsTable {
    pub listings: Seq<Listing>,
    /// A record of each name.
    pub pointers: Seq<Record>,
    pub names: Index,
    pub addresses: Index,
}

/// The table of a file and lines.
pub(crate) fn table_of(alloc: Global, text: &[u8], lines: &[Line]) -> Result<HostsTable, NoMemory>
    ensures { IfOk result (λ table. IsTable (listings_in text.now lines.now) table) }
{
    let listings = listings_of(alloc, text, lines)?;
    Ok(HostsTable {
        pointers: pointers_of(alloc, listings.as_slice())?,
        names: by_name(alloc, listings.as_slice())?,
        addresses: by_address(alloc, listings.as_slice())?,
        listings,
    })
}

// What a file and lines list.
fn listings_of(alloc: Global, text: &[u8], lines: &[Line]) -> Result<Seq<Listing>, NoMemory>
    ensures { IfOk result (λ listings. listings ≡ listings_in text.now lines.now) }
{
    let mut listings = Seq::new(alloc);
    add_file(alloc, &mut listings, text)?;
    add_inline(alloc, &mut listings, lines)?;
    Ok(listings)
}
