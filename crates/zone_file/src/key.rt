ghost use Rattle.std.specs.Prelude.{◌≡◌, ◌++◌, IfOk, OnOk};
ghost use Rattle.std.specs.List.{AllByRecursion};
ghost use Rattle.dns_data.specs.{IsFormed};
ghost use Rattle.dns_data.specs.Record.{IsCharacterString};
ghost use Rattle.dns_data.specs.declared.record.Rdata.TheVariants as rdata;
ghost use Rattle.zone_file.specs.Keys.{data_bytes, name_bytes, numbers_bytes, record_key, side_key};
ghost use Rattle.zone_file.specs.Keys.{string_bytes_of, strings_bytes, u32_bytes};

use dns_data::{Name, NoMemory, Rdata, Record, Soa, Strings};
use std::alloc::Global;

/// What two records have in common where they are the same, TTL and class aside: the owner in small
/// letters, the type and the data in wire format.
pub(crate) fn record_key(alloc: Global, read: &Record) -> Result<Vec<u8>, NoMemory>
    ensures { IfOk result (λ key. key.items ≡ record_key read.now) }
{
    let mut key = Vec::new(alloc);
    let owner = read.owner.lower(alloc)?;
    put_name(&mut key, &owner)?;
    put(&mut key, &read.rdata.kind().to_be_bytes())?;
    put_data(&mut key, &read.rdata)?;
    Ok(key)
}

/// An owner in small letters, and whether its record is a CNAME.
pub(crate) fn side_key(alloc: Global, owner: &Name, is_cname: bool) -> Result<Vec<u8>, NoMemory>
    ensures { IfOk result (λ key. key.items ≡ side_key owner.now is_cname) }
{
    let mut key = Vec::new(alloc);
    let owner = owner.lower(alloc)?;
    put(&mut key, &[u8::from(is_cname)])?;
    put(&mut key, owner.as_wire())?;
    Ok(key)
}

fn put(key: &mut Vec<u8>, bytes: &[u8]) -> Result<(), NoMemory>
    ensures { OnOk result (key.new.items ≡ key.old.items ++ bytes.now) }
{
    key.extend_from_slice(bytes)?;
    Ok(())
}

fn put_name(key: &mut Vec<u8>, name: &Name) -> Result<(), NoMemory>
    ensures { OnOk result (key.new.items ≡ key.old.items ++ name_bytes name.now) }
{
    put(key, name.as_wire())?;
    put(key, &[0])
}

fn put_data(key: &mut Vec<u8>, data1: &Rdata) -> Result<(), NoMemory>
    requires { IsFormed data1.now }
    ensures { OnOk result (key.new.items ≡ key.old.items ++ data_bytes data1.now) }
{
    match data1 {
        Rdata::A(addr) => put_u32(key, *addr),
        Rdata::Aaaa(addr) => put(key, &addr.to_be_bytes()),
        Rdata::Ns(name) | Rdata::Cname(name) | Rdata::Ptr(name) => put_name(key, name),
        Rdata::Soa(soa) => put_soa(key, soa),
        Rdata::Hinfo(cpu, os) => {
            put_string(key, cpu.as_slice())?;
            put_string(key, os.as_slice())
        }
        Rdata::Mx(preference, exchange) => {
            put(key, &preference.to_be_bytes())?;
            put_name(key, exchange)
        }
        Rdata::Txt(strings) => put_strings(key, strings),
        Rdata::Srv(priority, weight, port, target) => {
            put(key, &priority.to_be_bytes())?;
            put(key, &weight.to_be_bytes())?;
            put(key, &port.to_be_bytes())?;
            put_name(key, target)
        }
        Rdata::Caa(flags, tag, value) => {
            put(key, &[*flags])?;
            put_string(key, tag.as_slice())?;
            put(key, value.as_slice())
        }
        Rdata::Opaque(_, text) => put(key, text.as_slice()),
    }
}

fn put_soa(key: &mut Vec<u8>, soa: &Soa) -> Result<(), NoMemory>
    ensures { OnOk result (key.new.items ≡ key.old.items ++ data_bytes (rdata.Soa soa.now)) }
{
    put_name(key, &soa.mname)?;
    put_name(key, &soa.rname)?;
    put_numbers(key, soa)
}

// The serial and the times.
fn put_numbers(key: &mut Vec<u8>, soa: &Soa) -> Result<(), NoMemory>
    ensures { OnOk result (key.new.items ≡ key.old.items ++ numbers_bytes soa.now) }
{
    put_u32(key, soa.serial)?;
    put_u32(key, soa.refresh)?;
    put_u32(key, soa.retry)?;
    put_u32(key, soa.expire)?;
    put_u32(key, soa.minimum)
}

#[tactic(auto, unfolding(crate::specs::Keys::u32_bytes))]
fn put_u32(key: &mut Vec<u8>, number: u32) -> Result<(), NoMemory>
    ensures { OnOk result (key.new.items ≡ key.old.items ++ u32_bytes number) }
{
    put(key, &number.to_be_bytes())
}

fn put_strings(key: &mut Vec<u8>, strings: &Strings) -> Result<(), NoMemory>
    requires { AllByRecursion IsCharacterString strings.now }
    ensures { OnOk result (key.new.items ≡ key.old.items ++ strings_bytes strings.now) }
{
    for string in strings.as_slice() {
        put_string(key, string.as_slice())?;
    }
    Ok(())
}

fn put_string(key: &mut Vec<u8>, string: &[u8]) -> Result<(), NoMemory>
    requires { IsCharacterString string.now }
    ensures { OnOk result (key.new.items ≡ key.old.items ++ string_bytes_of string.now) }
{
    put(key, &[string.len() as u8])?;
    put(key, string)
}
