ghost use Rattle.std.specs.Prelude.{◌≡◌, length, take, IfOk, MatchOption};
ghost use Rattle.dns_data.specs.{reverse_of};
ghost use Rattle.name_table.specs.Table.{IsMissing};
ghost use Rattle.hosts_plugin.specs.Index.{Adds, IsEmpty, IsFound, IsIndexOf};

use crate::listing::Listing;
use dns_data::{Copies, Name, NoMemory, Seq};
use name_table::NameTable;
use std::alloc::Global;
use std::marker::Model;

/// Names, and the numbers of what is listed under each, in order.
#[derive(Debug, Drop)]
pub struct Index {
    names: NameTable,
    sets: Vec<Seq<usize>>,
}

impl Model for Index {
    ghost use Rattle.std.specs.Prelude.{◌≡◌, length};
    ghost use Rattle.hosts_plugin.specs.Index.{IndexData};

    ghost Value = { IndexData };

    ghost view = { λ x. record { names = x.names; sets = x.sets.items } };

    ghost invariant = { λ x. length x.sets.items ≡ length x.names };
}

/// What is listed, by its names.
pub(crate) fn by_name(alloc: Global, listings: &[Listing]) -> Result<Index, NoMemory>
    ensures { IfOk result
        (λ index. IsIndexOf index (λ l. l.name) listings.now (length listings.now)) }
{
    let mut index = Index::new(alloc, listings.len())?;
    for number in 0..listings.len() {
        index = index.with(alloc, listings[number].name.copy(alloc)?, number)?;
    }
    Ok(index)
}

/// What is listed, by the names that stand for its addresses (RFC 1035, section 3.5; RFC 3596,
/// section 2.5).
pub(crate) fn by_address(alloc: Global, listings: &[Listing]) -> Result<Index, NoMemory>
    ensures { IfOk result
        (λ index. IsIndexOf index (λ l. reverse_of l.addr) listings.now (length listings.now)) }
{
    let mut index = Index::new(alloc, listings.len())?;
    for number in 0..listings.len() {
        let name = Name::reverse(alloc, &listings[number].addr)?;
        index = index.with(alloc, name, number)?;
    }
    Ok(index)
}

impl Index {
    /// The numbers of a name, ASCII case aside.
    #[inline]
    pub(crate) fn find(&self, name: &Name) -> Option<&[usize]>
        ensures { MatchOption result
            (IsMissing self.now.names name.now) (λ set. IsFound self.now name.now set.now) }
    {
        let number = self.names.find(&name.labels())?;
        Some(self.sets[number].as_slice())
    }

    // No names. It is fastest with at most so many.
    fn new(alloc: Global, most: usize) -> Result<Index, NoMemory>
        ensures { IfOk result (λ index. IsEmpty index) }
    {
        Ok(Index {
            names: NameTable::new(alloc, most.min(1_000_000) as u32)?,
            sets: Vec::new(alloc),
        })
    }

    // With a number more under a name.
    fn with(self, alloc: Global, name: Name, number: usize) -> Result<Index, NoMemory>
        ensures { IfOk result (λ index. Adds self index name number) }
    {
        let Index {
            mut names,
            mut sets,
        } = self;
        let Some(place) = names.find(&name.labels()) else {
            let mut set = Seq::new(alloc);
            set.push(number)?;
            sets.push(set)?;
            names.push(name)?;
            return Ok(Index { names, sets });
        };
        sets[place].push(number)?;
        Ok(Index { names, sets })
    }
}
