//! Lists of records in the room of earlier ones.
ghost use Rattle.std.specs.Prelude.{◌≡◌, ◌^◌, ◌<◌, ◌≤◌, ◌+◌, [], ◌∷◌, ◌++◌, length, take, OnOk};
ghost use Rattle.std.specs.Prelude.{OnErr, IfOk};
ghost use Rattle.dns_names.specs.Name.{IsLabel, wire_length};
ghost use Rattle.dns_data.specs.Record.{Changes, address_record, owned_by, service_record};
ghost use Rattle.dns_names.specs.declared.limit.TheConstants as limits;

use crate::{Addr, Copies, Name, NoMemory, Rdata, Record, Records, Seq, class};
use std::alloc::Global;
use std::marker::Model;

/// A list of records that keeps the room of those that stood in it before: `clear` ends none, and a
/// record is copied into one of them. Where the types are A, AAAA, NS, CNAME, PTR or SOA, and names
/// have at most 38 bytes, this takes no memory. Contracts see the records of the list alone.
#[derive(Debug, Drop)]
pub struct RecordRoom {
    // The records of the list, and behind them those that stood in it before.
    items: Vec<Record>,
    count: usize,
}

impl Model for RecordRoom {
    ghost use Rattle.std.specs.Prelude.{List, ◌≤◌, take, vec_len};
    ghost use Rattle.dns_data.specs.Record.{RecordData};

    ghost Value = { List RecordData };

    ghost view = { λ r. take r.count r.items.items };

    ghost invariant = { λ r. r.count ≤ vec_len r.items };
}

impl RecordRoom {
    /// No records.
    pub fn new(alloc: Global) -> RecordRoom
        ensures { result ≡ [] }
    {
        RecordRoom {
            items: Vec::new(alloc),
            count: 0,
        }
    }

    /// How many records the list has.
    #[inline]
    pub fn len(&self) -> usize
        ensures { result ≡ length self.now }
    {
        self.count
    }

    /// The records of the list.
    #[inline]
    pub fn as_slice(&self) -> &[Record]
        ensures { result.now ≡ self.now }
    {
        &self.items[..self.count]
    }

    /// Empties the list, and keeps the room.
    #[inline]
    pub fn clear(&mut self)
        ensures { self.new ≡ [] }
    {
        self.count = 0;
    }

    /// Leaves the first so many records.
    #[inline]
    pub fn truncate(&mut self, count: usize)
        ensures { self.new ≡ take count self.old }
    {
        if count < self.count {
            self.count = count;
        }
    }

    /// Gives the record at an index another owner.
    #[inline]
    pub fn set_owner(&mut self, index: usize, owner: &Name) -> Result<(), NoMemory>
        requires { index < length self.old }
        ensures { OnOk result
            (Changes (λ r. owned_by owner.now r.ttl r) index self.old self.new) }
    {
        self.items[index].set_owner(owner)
    }

    /// Gives the record at an index another TTL.
    #[inline]
    pub fn set_ttl(&mut self, index: usize, ttl: u32)
        requires index { index < length self.old }
        requires ttl { ttl < 2 ^ 31 }
        ensures { Changes (λ r. owned_by r.owner ttl r) index self.old self.new }
    {
        self.items[index].ttl = ttl;
    }
}

impl RecordRoom {
    /// Adds a copy of a record with this owner and TTL.
    #[inline]
    pub fn push_copy(
        &mut self,
        alloc: Global,
        owner: &Name,
        ttl: u32,
        entry: &Record,
    ) -> Result<(), NoMemory>
        requires { ttl < 2 ^ 31 }
        ensures ok { OnOk result
            (self.new ≡ self.old ++ owned_by owner.now ttl entry.now ∷ []) }
        ensures err { OnErr result (self.new ≡ self.old) }
    {
        if self.count < self.items.len() {
            if self.items[self.count].set_near(owner, ttl, entry) {
                self.count += 1;
                return Ok(());
            }
        }
        self.push_far(alloc, owner, ttl, entry)
    }

    /// Adds a copy of a record.
    #[inline]
    pub fn push(&mut self, alloc: Global, entry: &Record) -> Result<(), NoMemory>
        ensures ok { OnOk result (self.new ≡ self.old ++ entry.now ∷ []) }
        ensures err { OnErr result (self.new ≡ self.old) }
    {
        let ttl = entry.ttl;
        self.push_copy(alloc, &entry.owner, ttl, entry)
    }

    /// Adds copies of records.
    pub fn push_all(&mut self, alloc: Global, entries: &[Record]) -> Result<(), NoMemory>
        ensures { OnOk result (self.new ≡ self.old ++ entries.now) }
    {
        for entry in entries {
            self.push(alloc, entry)?;
        }
        Ok(())
    }

    /// Adds the record of an address (class IN).
    #[inline]
    pub fn push_address(
        &mut self,
        alloc: Global,
        owner: &Name,
        ttl: u32,
        addr: Addr,
    ) -> Result<(), NoMemory>
        requires { ttl < 2 ^ 31 }
        ensures ok { OnOk result
            (self.new ≡ self.old ++ address_record owner.now ttl addr ∷ []) }
        ensures err { OnErr result (self.new ≡ self.old) }
    {
        if self.count >= self.items.len() {
            self.more(alloc)?;
        }
        if self.count >= self.items.len() {
            return Err(NoMemory);
        }
        self.items[self.count].set_address(owner, ttl, addr)?;
        self.count += 1;
        Ok(())
    }

    /// Adds the SRV record of a port (class IN), with priority 0, weight 0 and the root for its
    /// target (RFC 2782). Its owner is a name with a label before it.
    pub fn push_service(
        &mut self,
        alloc: Global,
        label: &[u8],
        below: &Name,
        ttl: u32,
        port: u16,
    ) -> Result<(), NoMemory>
        requires label { IsLabel label.now }
        requires room { wire_length below.now + length label.now + 1 ≤ limits.NAME_BYTES }
        requires ttl { ttl < 2 ^ 31 }
        ensures ok { OnOk result
            (self.new ≡ self.old ++ service_record (label.now ∷ below.now) ttl port ∷ []) }
        ensures err { OnErr result (self.new ≡ self.old) }
    {
        if self.count >= self.items.len() {
            self.more(alloc)?;
        }
        if self.count >= self.items.len() {
            return Err(NoMemory);
        }
        self.items[self.count].set_service(alloc, label, below, ttl, port)?;
        self.count += 1;
        Ok(())
    }

    /// Copies of the records, in a list of their own.
    pub fn to_records(&self, alloc: Global) -> Result<Records, NoMemory>
        ensures { IfOk result (λ records. records ≡ self.now) }
    {
        let mut records = Seq::with_capacity(alloc, self.count)?;
        for entry in self.as_slice() {
            records.push(entry.copy(alloc)?)?;
        }
        Ok(records)
    }
}

impl RecordRoom {
    // Adds such a record in whatever room there is.
    #[inline(never)]
    fn push_far(
        &mut self,
        alloc: Global,
        owner: &Name,
        ttl: u32,
        entry: &Record,
    ) -> Result<(), NoMemory>
        requires { ttl < 2 ^ 31 }
        ensures ok { OnOk result
            (self.new ≡ self.old ++ owned_by owner.now ttl entry.now ∷ []) }
        ensures err { OnErr result (self.new ≡ self.old) }
    {
        if self.count >= self.items.len() {
            return self.grow(alloc, owner, ttl, entry);
        }
        self.items[self.count].set(alloc, owner, ttl, entry)?;
        self.count += 1;
        Ok(())
    }

    // Adds such a record, where no other stood in its place.
    #[cold]
    #[inline(never)]
    fn grow(
        &mut self,
        alloc: Global,
        owner: &Name,
        ttl: u32,
        entry: &Record,
    ) -> Result<(), NoMemory>
        requires { ttl < 2 ^ 31 }
        ensures ok { OnOk result
            (self.new ≡ self.old ++ owned_by owner.now ttl entry.now ∷ []) }
        ensures err { OnErr result (self.new ≡ self.old) }
    {
        let made = entry.copy_with(alloc, owner, ttl)?;
        self.items.truncate(self.count);
        self.items.push(made)?;
        self.count += 1;
        Ok(())
    }

    // Makes room for one more record.
    #[cold]
    #[inline(never)]
    fn more(&mut self, alloc: Global) -> Result<(), NoMemory>
        ensures { self.new ≡ self.old }
    {
        let spare = Record::new(Name::root(alloc), class::IN, 0, Rdata::A(0));
        self.items.push(spare)?;
        Ok(())
    }
}
