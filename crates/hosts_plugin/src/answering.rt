ghost use Rattle.std.specs.Prelude.{◌≡◌, ◌<◌, ◌^◌, ◌++◌, map, slice_get, Some, None};
ghost use Rattle.std.specs.Prelude.{IfOk, IfSome, IfNone, OnOk};
ghost use Rattle.dns_data.specs.{owned_by};
ghost use Rattle.hosts_plugin.specs.Hosts.{address_records, is_of};
ghost use Rattle.hosts_plugin.specs.Index.{picked};
ghost use Rattle.hosts_plugin.specs.Made.{pointers_of};

use crate::listing::Listing;
use dns_data::{Addr, Copies, Name, NoMemory, Query, Rdata, Record, RecordRoom, Seq, class, kind};
use std::alloc::Global;

/// A record of each name that is listed, which `push_pointers` copies.
pub(crate) fn pointers_of(alloc: Global, listings: &[Listing]) -> Result<Seq<Record>, NoMemory>
    ensures { IfOk result (λ records. records ≡ pointers_of listings.now) }
{
    let mut records = Seq::with_capacity(alloc, listings.len())?;
    let mut rest = listings;
    while let Some((listing, behind)) = rest.split_first() {
        let name = listing.name.copy(alloc)?;
        records.push(Record::new(Name::root(alloc), class::IN, 0, Rdata::Ptr(name)))?;
        rest = behind;
    }
    Ok(records)
}

/// Adds the records of the addresses of the type that is asked.
pub(crate) fn push_addresses(
    alloc: Global,
    listings: &[Listing],
    set: &[usize],
    query: &Query,
    ttl: u32,
    out: &mut RecordRoom,
) -> Result<(), NoMemory>
    requires { ttl < 2 ^ 31 }
    ensures { OnOk result
        (out.new ≡ out.old ++ address_records query.now ttl (picked listings.now set.now)) }
{
    let mut rest = set;
    while let Some((number, behind)) = rest.split_first() {
        if let Some(listing) = item_at(listings, *number) {
            if is_of(query.kind, &listing.addr) {
                out.push_address(alloc, &query.name, ttl, listing.addr)?;
            }
        }
        rest = behind;
    }
    Ok(())
}

/// Adds the records of names.
pub(crate) fn push_pointers(
    alloc: Global,
    pointers: &[Record],
    set: &[usize],
    owner: &Name,
    ttl: u32,
    out: &mut RecordRoom,
) -> Result<(), NoMemory>
    requires { ttl < 2 ^ 31 }
    ensures { OnOk result
        (out.new ≡ out.old ++ map (owned_by owner.now ttl) (picked pointers.now set.now)) }
{
    let mut rest = set;
    while let Some((number, behind)) = rest.split_first() {
        if let Some(pointer) = item_at(pointers, *number) {
            out.push_copy(alloc, owner, ttl, pointer)?;
        }
        rest = behind;
    }
    Ok(())
}

// The item of a number, where there is one.
#[inline]
fn item_at<T>(items: &[T], number: usize) -> Option<&T>
    ensures some { IfSome result (λ item. slice_get items.now number ≡ Some item.now) }
    ensures none { IfNone result (slice_get items.now number ≡ None) }
{
    if number < items.len() {
        Some(&items[number])
    } else {
        None
    }
}

// Whether an address is of a type.
fn is_of(kind: u16, addr: &Addr) -> bool
    ensures { result ≡ is_of kind addr.now }
{
    match *addr {
        Addr::V4(_) => kind == kind::A,
        Addr::V6(_) => kind == kind::AAAA,
    }
}
