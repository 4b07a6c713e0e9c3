//! Records made in the room of others.
ghost use Rattle.std.specs.Prelude.{◌≡◌, ◌^◌, ◌<◌, ◌≤◌, ◌+◌, [], ◌∷◌, length, OnOk, OnErr, IfOk};
ghost use Rattle.std.specs.Prelude.{IsTrue, IsFalse};
ghost use Rattle.dns_names.specs.Name.{IsLabel, wire_length};
ghost use Rattle.dns_data.specs.Record.{address_data, address_record, owned_by, service_record};
ghost use Rattle.dns_names.specs.declared.limit.TheConstants as limits;
ghost use Rattle.dns_data.specs.declared.record.Rdata.TheVariants as rdata;

use crate::{Addr, Copies, Name, NoMemory, Rdata, Record, Soa, class};
use std::alloc::Global;

impl Soa {
    // Becomes other data, where no name has an allocation. Else nothing is done.
    #[inline(always)]
    fn set_near(&mut self, other: &Soa) -> bool
        ensures done { IsTrue result → self.new ≡ other.now }
        ensures not { IsFalse result → self.new ≡ self.old }
    {
        if !Name::set_two_near(&mut self.mname, &mut self.rname, &other.mname, &other.rname) {
            return false;
        }
        self.serial = other.serial;
        self.refresh = other.refresh;
        self.retry = other.retry;
        self.expire = other.expire;
        self.minimum = other.minimum;
        true
    }
}

impl Rdata {
    // Becomes other data, where it is of the same type, and neither has an allocation. Else nothing
    // is done.
    #[inline(always)]
    fn set_near(&mut self, other: &Rdata) -> bool
        ensures done { IsTrue result → self.new ≡ other.now }
        ensures not { IsFalse result → self.new ≡ self.old }
    {
        match (&mut *self, other) {
            (Rdata::A(addr), Rdata::A(source)) => {
                *addr = *source;
                true
            }
            (Rdata::Aaaa(addr), Rdata::Aaaa(source)) => {
                *addr = *source;
                true
            }
            (Rdata::Ns(name), Rdata::Ns(source)) => name.set_near(source),
            (Rdata::Cname(name), Rdata::Cname(source)) => name.set_near(source),
            (Rdata::Ptr(name), Rdata::Ptr(source)) => name.set_near(source),
            (Rdata::Soa(soa), Rdata::Soa(source)) => soa.set_near(source),
            (_, _) => false,
        }
    }

    // Becomes other data, in the room that is there where both have one name.
    #[inline(always)]
    fn set(&mut self, alloc: Global, other: &Rdata) -> Result<(), NoMemory>
        ensures ok { OnOk result (self.new ≡ other.now) }
        ensures err { OnErr result (self.new ≡ self.old) }
    {
        match (&mut *self, other) {
            (Rdata::Ns(name), Rdata::Ns(source)) => name.set(source),
            (Rdata::Cname(name), Rdata::Cname(source)) => name.set(source),
            (Rdata::Ptr(name), Rdata::Ptr(source)) => name.set(source),
            (_, source) => self.replace(alloc, source),
        }
    }

    // Becomes an address.
    #[inline(always)]
    fn set_address(&mut self, addr: Addr)
        ensures { self.new ≡ address_data addr }
    {
        match (&mut *self, addr) {
            (Rdata::A(bits), Addr::V4(source)) => {
                *bits = source;
            }
            (Rdata::Aaaa(bits), Addr::V6(source)) => {
                *bits = source;
            }
            (_, addr) => self.replace_by(address(addr)),
        }
    }

    // Becomes the data of an SRV record of a port, with priority 0, weight 0 and the root.
    #[inline(always)]
    fn set_service(&mut self, alloc: Global, port: u16)
        ensures { self.new ≡ rdata.Srv 0 0 port [] }
    {
        match self {
            Rdata::Srv(priority, weight, place, target) => {
                *priority = 0;
                *weight = 0;
                *place = port;
                target.clear();
            }
            other => other.replace_by_service(alloc, port),
        }
    }

    // The same, where its own data are others, which go.
    #[cold]
    #[inline(never)]
    fn replace_by_service(&mut self, alloc: Global, port: u16)
        ensures { self.new ≡ rdata.Srv 0 0 port [] }
    {
        *self = Rdata::Srv(0, 0, port, Name::root(alloc));
    }

    // Becomes a copy of other data, and its own goes.
    #[inline(never)]
    fn replace(&mut self, alloc: Global, other: &Rdata) -> Result<(), NoMemory>
        ensures ok { OnOk result (self.new ≡ other.now) }
        ensures err { OnErr result (self.new ≡ self.old) }
    {
        let made = other.copy(alloc)?;
        *self = made;
        Ok(())
    }

    // Becomes other data, and its own goes.
    #[inline(never)]
    fn replace_by(&mut self, other: Rdata)
        ensures { self.new ≡ other }
    {
        *self = other;
    }
}

fn address(addr: Addr) -> Rdata
    ensures { result ≡ address_data addr }
{
    match addr {
        Addr::V4(bits) => Rdata::A(bits),
        Addr::V6(bits) => Rdata::Aaaa(bits),
    }
}

impl Record {
    /// Becomes the record of an address (class IN), in the room that is there.
    #[inline(always)]
    pub(crate) fn set_address(&mut self, owner: &Name, ttl: u32, addr: Addr) -> Result<(), NoMemory>
        requires { ttl < 2 ^ 31 }
        ensures { OnOk result (self.new ≡ address_record owner.now ttl addr) }
    {
        self.owner.set(owner)?;
        let _ = self.owner.wire_len();
        self.class = class::IN;
        self.ttl = ttl;
        self.rdata.set_address(addr);
        self.rdata.read_numbers();
        Ok(())
    }

    /// Becomes the SRV record of a port, whose owner is a name with a label before it, in the room
    /// that is there.
    pub(crate) fn set_service(
        &mut self,
        alloc: Global,
        label: &[u8],
        below: &Name,
        ttl: u32,
        port: u16,
    ) -> Result<(), NoMemory>
        requires label { IsLabel label.now }
        requires room { wire_length below.now + length label.now + 1 ≤ limits.NAME_BYTES }
        requires ttl { ttl < 2 ^ 31 }
        ensures { OnOk result (self.new ≡ service_record (label.now ∷ below.now) ttl port) }
    {
        self.owner.set_below(label, below)?;
        let _ = self.owner.wire_len();
        self.class = class::IN;
        self.ttl = ttl;
        self.rdata.set_service(alloc, port);
        self.rdata.read_numbers();
        Ok(())
    }

    /// Becomes another record with this owner and TTL, where their types are the same and no name
    /// has an allocation. Else it is some proper record.
    #[inline(always)]
    pub(crate) fn set_near(&mut self, owner: &Name, ttl: u32, other: &Record) -> bool
        requires { ttl < 2 ^ 31 }
        ensures { IsTrue result → self.new ≡ owned_by owner.now ttl other.now }
    {
        if !self.owner.set_near(owner) {
            let _ = self.owner.wire_len();
            return false;
        }
        let _ = self.owner.wire_len();
        self.class = other.class;
        self.ttl = ttl;
        self.rdata.set_near(&other.rdata)
    }

    /// Becomes another record with this owner and TTL, in the room that is there.
    #[inline(always)]
    pub(crate) fn set(
        &mut self,
        alloc: Global,
        owner: &Name,
        ttl: u32,
        other: &Record,
    ) -> Result<(), NoMemory>
        requires { ttl < 2 ^ 31 }
        ensures { OnOk result (self.new ≡ owned_by owner.now ttl other.now) }
    {
        self.owner.set(owner)?;
        let _ = self.owner.wire_len();
        self.class = other.class;
        self.ttl = ttl;
        self.rdata.set(alloc, &other.rdata)
    }

    /// A copy with this owner and TTL.
    pub fn copy_with(&self, alloc: Global, owner: &Name, ttl: u32) -> Result<Record, NoMemory>
        requires { ttl < 2 ^ 31 }
        ensures { IfOk result (λ made. made ≡ owned_by owner.now ttl self.now) }
    {
        Ok(Record {
            owner: owner.copy(alloc)?,
            class: self.class,
            ttl,
            rdata: self.rdata.copy(alloc)?,
        })
    }

    /// Gives it another owner, in the room that is there.
    pub fn set_owner(&mut self, owner: &Name) -> Result<(), NoMemory>
        ensures ok { OnOk result (self.new ≡ owned_by owner.now self.old.ttl self.old) }
        ensures err { OnErr result (self.new ≡ self.old) }
    {
        let done = self.owner.set(owner);
        let _ = self.owner.wire_len();
        done
    }
}
