ghost use Rattle.std.specs.Prelude.{Some, ◌≡◌, ◌<◌, ◌^◌, ◌++◌, false, string_bytes, IfOk, OnOk};
ghost use Rattle.std.specs.Fmt.{digits};
ghost use Rattle.dns_addr.specs.AddrText.{IsAddr, addr_of, addr_text, groups_text, v4_text};
ghost use Rattle.dns_addr.specs.AddrText.{v6_groups, v6_groups_text};

use crate::Addr;
use crate::runs::{first_run, longest};
use dns_lists::{NoMemory, Text};
use std::alloc::Global;
use std::fmt::Write;

impl Addr {
    /// The address as text: IPv4 as four decimal numbers, IPv6 by RFC 5952, section 4, and never
    /// with an IPv4 address in it.
    pub fn text(&self, alloc: Global) -> Result<Text, NoMemory>
        ensures text { IfOk result (λ text. text ≡ addr_text self.now) }
        ensures read { IfOk result (λ text. addr_of text ≡ Some self.now) }
    {
        has_its_bits(*self);
        printed(alloc, *self)
    }
}

// Tells the caller what the type says of the number.
fn has_its_bits(addr: Addr)
    ensures { IsAddr addr }
{
    match addr {
        Addr::V4(number) => v4_has_32(number),
        Addr::V6(number) => v6_has_128(number),
    }
}

fn v4_has_32(number: u32)
    ensures { number < 2 ^ 32 }
{}

fn v6_has_128(number: u128)
    ensures { number < 2 ^ 128 }
{}

#[tactic(auto, unfolding(crate::specs::AddrText::v6_text))]
fn printed(alloc: Global, addr: Addr) -> Result<Text, NoMemory>
    ensures { IfOk result (λ text. text ≡ addr_text addr) }
{
    let mut text = String::with_capacity(alloc, 39)?;
    match addr {
        Addr::V4(addr) => put_v4(&mut text, addr)?,
        Addr::V6(addr) => put_v6(&mut text, &groups(addr))?,
    }
    Ok(Text::of(text))
}

fn put_v4(text: &mut String, addr: u32) -> Result<(), NoMemory>
    ensures { OnOk result (string_bytes text.new ≡ string_bytes text.old ++ v4_text addr) }
{
    let (a, b) = (addr >> 24, (addr >> 16) % 256);
    let (c, d) = ((addr >> 8) % 256, addr % 256);
    match write!(text, "{a}.{b}.{c}.{d}") {
        Ok(()) => Ok(()),
        Err(_) => Err(NoMemory),
    }
}

// The groups of an address, the highest first.
fn groups(addr: u128) -> [u16; 8]
    ensures { result ≡ v6_groups addr }
{
    [
        (addr >> 112) as u16,
        ((addr >> 96) % 65536) as u16,
        ((addr >> 80) % 65536) as u16,
        ((addr >> 64) % 65536) as u16,
        ((addr >> 48) % 65536) as u16,
        ((addr >> 32) % 65536) as u16,
        ((addr >> 16) % 65536) as u16,
        (addr % 65536) as u16,
    ]
}

fn put_v6(text: &mut String, groups: &[u16]) -> Result<(), NoMemory>
    ensures { OnOk result (
        string_bytes text.new ≡ string_bytes text.old ++ v6_groups_text groups.now) }
{
    let size = longest(groups);
    if size < 2 {
        return put_groups(text, groups);
    }
    let at = first_run(groups, size);
    put_groups(text, &groups[..at])?;
    text.push_str("::")?;
    put_groups(text, &groups[at + size..])
}

// Groups with colons between them.
fn put_groups(text: &mut String, groups: &[u16]) -> Result<(), NoMemory>
    ensures { OnOk result (
        string_bytes text.new ≡ string_bytes text.old ++ groups_text groups.now) }
{
    let Some((first, others)) = groups.split_first() else {
        return Ok(());
    };
    put_group(text, *first)?;
    for group in others {
        text.push_str(":")?;
        put_group(text, *group)?;
    }
    Ok(())
}

fn put_group(text: &mut String, group: u16) -> Result<(), NoMemory>
    ensures { OnOk result (string_bytes text.new ≡ string_bytes text.old ++ digits 16 false group) }
{
    match write!(text, "{group:x}") {
        Ok(()) => Ok(()),
        Err(_) => Err(NoMemory),
    }
}
