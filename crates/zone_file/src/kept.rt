ghost use Rattle.std.specs.Prelude.{◌≡◌, ◌∷◌, ◌++◌, ◌||◌, [], IfOk};
ghost use Rattle.std.specs.List.{list_any};
ghost use Rattle.zone_file.specs.Zones.{Agrees, is_full, is_second_soa};
ghost use Rattle.zone_file.specs.Zones.{is_soa, with_new, with_record};
ghost use Rattle.zone_file.specs.Keys.{is_cname, is_same_record, mixes, record_key};

use crate::key::{record_key, side_key};
use crate::{ZoneFault, ZoneWhy};
use dns_data::limit::ZONE_RECORDS;
use dns_data::{Name, NoMemory, Record, Records, kind};
use std::alloc::Global;
use std::collections::HashSet;
use std::marker::Model;

/// The records of a zone so far. Contracts see their list.
#[derive(Drop)]
pub(crate) struct Kept {
    records: Records,
    // The key of each record.
    keys: HashSet<Vec<u8>>,
    // The owner of each record, and whether it is a CNAME.
    sides: HashSet<Vec<u8>>,
    has_soa: bool,
}

impl Model for Kept {
    ghost use Rattle.std.specs.Prelude.{List};
    ghost use Rattle.dns_data.specs.{RecordData};
    ghost use Rattle.zone_file.specs.Kept.{IsKept};

    ghost Value = { List RecordData };

    ghost view = { λ k. k.records };

    ghost invariant = { λ k. IsKept k.records k.keys k.sides k.has_soa };
}

impl Kept {
    pub fn new(alloc: Global) -> Kept
        ensures { result ≡ [] }
    {
        Kept {
            records: Records::new(alloc),
            keys: HashSet::new(alloc),
            sides: HashSet::new(alloc),
            has_soa: false,
        }
    }

    /// The records.
    pub fn into_records(self) -> Records
        ensures { result ≡ self }
    {
        self.records
    }

    pub fn has_soa(&self) -> bool
        ensures { result ≡ list_any is_soa self.now }
    {
        self.has_soa
    }

    /// Adds a record of this line, unless it lies outside of the zone or is there.
    pub fn add(self, alloc: Global, zone: &Name, line: u32, read: Record) -> Result<Kept, ZoneFault>
        ensures { Agrees (with_record zone.now line read self) result }
    {
        if !read.owner.is_within(zone) {
            return Ok(self);
        }
        let key = record_key(alloc, &read)?;
        if self.has(&key, &read) {
            return Ok(self);
        }
        self.add_new(alloc, zone, line, key, read)
    }

    // Adds a record that has this key and isn't there.
    fn add_new(
        self,
        alloc: Global,
        zone: &Name,
        line: u32,
        key: Vec<u8>,
        read: Record,
    ) -> Result<Kept, ZoneFault>
        requires { key.items ≡ record_key read }
        ensures { Agrees (with_new zone.now line read self) result }
    {
        if self.has_soa_before(zone, &read) {
            let why = ZoneWhy::TwoSoa;
            return Err(ZoneFault::Bad { line, why });
        }
        let mixed = self.mixes(alloc, &read)?;
        if mixed {
            let why = ZoneWhy::CnameMix;
            return Err(ZoneFault::Bad { line, why });
        }
        if self.is_full() {
            return Err(ZoneFault::TooMany);
        }
        let kept = self.with(alloc, key, read)?;
        Ok(kept)
    }

    // Whether a record that has this key is there.
    fn has(&self, key: &Vec<u8>, read: &Record) -> bool
        requires { key.now.items ≡ record_key read.now }
        ensures { result ≡ list_any (is_same_record read.now) self.now }
    {
        self.keys.contains(key)
    }

    // Whether a record is an SOA that may not stand there.
    fn has_soa_before(&self, zone: &Name, read: &Record) -> bool
        ensures { result ≡ is_second_soa zone.now read.now self.now }
    {
        is_soa(read) && (!read.owner.same(zone) || self.has_soa)
    }

    fn is_full(&self) -> bool
        ensures { result ≡ is_full self.now }
    {
        ZONE_RECORDS <= self.records.len()
    }

    // Whether a record of another type stands beside one whose owner has a CNAME, or the other way
    // round.
    fn mixes(&self, alloc: Global, read: &Record) -> Result<bool, NoMemory>
        ensures { IfOk result (λ mixed. mixed ≡ list_any (mixes read.now) self.now) }
    {
        let side = side_key(alloc, &read.owner, !is_cname(read))?;
        Ok(self.sides.contains(&side))
    }

    // With one more record, which has this key.
    fn with(self, alloc: Global, key: Vec<u8>, read: Record) -> Result<Kept, NoMemory>
        requires { key.items ≡ record_key read }
        ensures { IfOk result (λ kept. kept ≡ self ++ read ∷ []) }
    {
        let Kept {
            mut records,
            mut keys,
            mut sides,
            has_soa,
        } = self;
        let side = side_key(alloc, &read.owner, is_cname(&read))?;
        let has_soa = either(has_soa, is_soa(&read));
        keys.insert(key)?;
        sides.insert(side)?;
        records.push(read)?;
        Ok(Kept {
            records,
            keys,
            sides,
            has_soa,
        })
    }
}

fn is_cname(read: &Record) -> bool
    ensures { result ≡ is_cname read.now }
{
    read.rdata.kind() == kind::CNAME
}

fn is_soa(read: &Record) -> bool
    ensures { result ≡ is_soa read.now }
{
    read.rdata.kind() == kind::SOA
}

fn either(a: bool, b: bool) -> bool
    ensures { result ≡ (a || b) }
{
    a || b
}
