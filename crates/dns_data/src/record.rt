ghost use Rattle.std.specs.Prelude.{◌≡◌, ◌^◌, ◌<◌, ◌≤◌, length};
ghost use Rattle.std.specs.List.{AllByRecursion};
ghost use Rattle.dns_names.specs.Name.{IsName};
ghost use Rattle.dns_data.specs.Record.{IsFormed, NumbersFit, kind_of, data_length, names_in};
ghost use Rattle.dns_data.specs.Record.{is_known_type, strings_length};
ghost use Rattle.dns_data.specs.declared.record.Rdata.TheVariants as rdata;

use crate::{Bytes, Copies, Name, NoMemory, Strings, kind};
use std::alloc::Global;
use std::marker::Model;

/// The data of an SOA record (RFC 1035, section 3.3.13). The times are in seconds.
#[derive(Debug, Drop)]
pub struct Soa {
    pub mname: Name,
    pub rname: Name,
    pub serial: u32,
    pub refresh: u32,
    pub retry: u32,
    pub expire: u32,
    pub minimum: u32,
}

impl Soa {
    // Tells that the numbers are in the range of their Rust type. It does nothing.
    #[inline]
    fn read_numbers(&self)
        ensures { NumbersFit (rdata.Soa self.now) }
    {
        let _serial = self.serial;
        let _refresh = self.refresh;
        let _retry = self.retry;
        let _expire = self.expire;
        let _minimum = self.minimum;
    }
}

impl Copies for Soa {
    fn copy(&self, alloc: Global) -> Result<Soa, NoMemory> {
        Ok(Soa {
            mname: self.mname.copy(alloc)?,
            rname: self.rname.copy(alloc)?,
            serial: self.serial,
            refresh: self.refresh,
            retry: self.retry,
            expire: self.expire,
            minimum: self.minimum,
        })
    }
}

/// The data of a record, by its type (RFC 1035, section 3.3; AAAA by RFC 3596; SRV by RFC 2782,
/// with priority, weight, port and target; CAA by RFC 8659, with flags, tag and value).
#[derive(Debug, Drop)]
pub enum Rdata {
    A(u32),
    Ns(Name),
    Cname(Name),
    Soa(Soa),
    Ptr(Name),
    /// CPU and OS.
    Hinfo(Bytes, Bytes),
    /// Preference and exchange.
    Mx(u16, Name),
    Txt(Strings),
    Aaaa(u128),
    Srv(u16, u16, u16, Name),
    Caa(u8, Bytes, Bytes),
    /// The number of a type that has no form here, and bytes.
    Opaque(u16, Bytes),
}

impl Rdata {
    /// The number of its type (RFC 1035, section 3.2.2).
    pub fn kind(&self) -> u16
        ensures { result ≡ kind_of self.now }
    {
        match self {
            Rdata::A(_) => kind::A,
            Rdata::Ns(_) => kind::NS,
            Rdata::Cname(_) => kind::CNAME,
            Rdata::Soa(_) => kind::SOA,
            Rdata::Ptr(_) => kind::PTR,
            Rdata::Hinfo(..) => kind::HINFO,
            Rdata::Mx(..) => kind::MX,
            Rdata::Txt(_) => kind::TXT,
            Rdata::Aaaa(_) => kind::AAAA,
            Rdata::Srv(..) => kind::SRV,
            Rdata::Caa(..) => kind::CAA,
            Rdata::Opaque(kind, _) => *kind,
        }
    }

    /// How many bytes the data takes with its names written whole.
    pub fn data_len(&self) -> usize
        requires { IsFormed self.now }
        ensures value { result ≡ data_length self.now }
        ensures names { AllByRecursion IsName (names_in self.now) }
        ensures short { result ≤ 65535 }
    {
        match self {
            Rdata::A(_) => 4,
            Rdata::Ns(name) | Rdata::Cname(name) | Rdata::Ptr(name) => name.wire_len(),
            Rdata::Soa(soa) => soa.mname.wire_len() + soa.rname.wire_len() + 20,
            Rdata::Hinfo(cpu, os) => cpu.len() + os.len() + 2,
            Rdata::Mx(_, exchange) => 2 + exchange.wire_len(),
            Rdata::Txt(strings) => strings_len(strings.as_slice()),
            Rdata::Aaaa(_) => 16,
            Rdata::Srv(_, _, _, target) => 6 + target.wire_len(),
            Rdata::Caa(_, tag, value) => 2 + tag.len() + value.len(),
            Rdata::Opaque(_, bytes) => bytes.len(),
        }
    }
}

impl Rdata {
    // Tells that the numbers are in the ranges of their Rust types. It does nothing.
    #[inline]
    pub(crate) fn read_numbers(&self)
        ensures { NumbersFit self.now }
    {
        match self {
            Rdata::A(addr) => {
                let _addr = *addr;
            }
            Rdata::Soa(soa) => soa.read_numbers(),
            Rdata::Mx(preference, _) => {
                let _preference = *preference;
            }
            Rdata::Aaaa(addr) => {
                let _addr = *addr;
            }
            Rdata::Srv(priority, weight, port, _) => {
                let _numbers = (*priority, *weight, *port);
            }
            Rdata::Caa(flags, _, _) => {
                let _flags = *flags;
            }
            Rdata::Opaque(kind, _) => {
                let _kind = *kind;
            }
            _ => {}
        }
    }
}

// The bytes of strings, each behind its length byte.
fn strings_len(strings: &[Bytes]) -> usize
    requires { strings_length strings.now ≤ 65535 }
    ensures { result ≡ strings_length strings.now }
{
    let mut total = 0;
    for string in strings {
        total += string.len() + 1;
    }
    total
}

/// Whether a type has a form of its own, so that no record of it is opaque. OPT (41) is one of
/// them.
#[tactic(auto, unfolding(crate::specs::Record::is_known_type))]
pub fn is_known_type(kind: u16) -> bool
    ensures { result ≡ is_known_type kind }
{
    kind == kind::A
        || kind == kind::NS
        || kind == kind::CNAME
        || kind == kind::SOA
        || kind == kind::PTR
        || kind == kind::HINFO
        || kind == kind::MX
        || kind == kind::TXT
        || kind == kind::AAAA
        || kind == kind::SRV
        || kind == kind::OPT
        || kind == kind::CAA
}

impl Copies for Rdata {
    fn copy(&self, alloc: Global) -> Result<Rdata, NoMemory> {
        Ok(match self {
            Rdata::A(addr) => Rdata::A(*addr),
            Rdata::Ns(name) => Rdata::Ns(name.copy(alloc)?),
            Rdata::Cname(name) => Rdata::Cname(name.copy(alloc)?),
            Rdata::Soa(soa) => Rdata::Soa(soa.copy(alloc)?),
            Rdata::Ptr(name) => Rdata::Ptr(name.copy(alloc)?),
            Rdata::Hinfo(cpu, os) => Rdata::Hinfo(cpu.copy(alloc)?, os.copy(alloc)?),
            Rdata::Mx(preference, exchange) => Rdata::Mx(*preference, exchange.copy(alloc)?),
            Rdata::Txt(strings) => Rdata::Txt(strings.copy(alloc)?),
            Rdata::Aaaa(addr) => Rdata::Aaaa(*addr),
            Rdata::Srv(priority, weight, port, target) => {
                Rdata::Srv(*priority, *weight, *port, target.copy(alloc)?)
            }
            Rdata::Caa(flags, tag, value) => {
                Rdata::Caa(*flags, tag.copy(alloc)?, value.copy(alloc)?)
            }
            Rdata::Opaque(kind, bytes) => Rdata::Opaque(*kind, bytes.copy(alloc)?),
        })
    }
}

/// A resource record (RFC 1035, section 3.2.1), which is always proper: see `IsProper`.
#[derive(Debug, Drop)]
pub struct Record {
    pub owner: Name,
    pub class: u16,
    /// In seconds, below 2^31 (RFC 2181, section 8).
    pub ttl: u32,
    /// At most 65,535 bytes with its names written whole.
    pub rdata: Rdata,
}

impl Model for Record {
    ghost use Rattle.dns_data.specs.Record.{RecordData, IsProper};

    ghost Value = { RecordData };

    ghost view = { λ r. record { owner = r.owner; class = r.class; ttl = r.ttl; rdata = r.rdata } };

    ghost invariant = { λ r. IsProper
        (record { owner = r.owner; class = r.class; ttl = r.ttl; rdata = r.rdata }) };
}

impl Record {
    /// The record of data that has the form of its type.
    pub fn new(owner: Name, class: u16, ttl: u32, rdata: Rdata) -> Record
        requires ttl { ttl < 2 ^ 31 }
        requires form { IsFormed rdata }
        ensures { result ≡ record { owner = owner; class = class; ttl = ttl; rdata = rdata } }
    {
        let _ = owner.wire_len();
        let _ = rdata.data_len();
        rdata.read_numbers();
        Record {
            owner,
            class,
            ttl,
            rdata,
        }
    }
}

impl Copies for Record {
    fn copy(&self, alloc: Global) -> Result<Record, NoMemory> {
        Ok(Record {
            owner: self.owner.copy(alloc)?,
            class: self.class,
            ttl: self.ttl,
            rdata: self.rdata.copy(alloc)?,
        })
    }
}
