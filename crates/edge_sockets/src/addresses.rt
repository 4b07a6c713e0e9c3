//! The addresses of this host, as Linux tells them in proc(5). Where there are several of a family,
//! a reply must come from the one that was asked.
ghost use Rattle.std.specs.Prelude.{◌≤◌, max, vec_len, IfSome};

use dns_data::{Addr, NoMemory};
use std::alloc::Global;
use std::fs::File;
use std::io::Read;
use std::rt::Files;
use std::{io, str};

// How many addresses of a family are looked at.
const MOST: usize = 32;

// 127.0.0.1.
const LOCALHOST: u32 = 0x7f00_0001;

// How many bytes of a table are read.
const BYTES: u64 = 1_048_576;

// The flag of an IPv6 address that others may have too, so that it can't be bound yet.
const TENTATIVE: u64 = 0x40;

/// The addresses of both families for which a host has several, in the system's order, without
/// those of the loopback and the links. None where the system doesn't tell them.
pub fn host_addresses(files: &impl Files, alloc: Global) -> Option<Vec<Addr>>
    ensures { IfSome result (λ found. vec_len found ≤ 64) }
{
    let (mut found, six) = listed_addresses(files, alloc)?;
    if found.len() < 2 {
        found.clear();
    }
    if six.len() > 1 && found.extend_from_slice(&six).is_err() {
        return None;
    }
    Some(found)
}

/// Every address of the host, up to 32 of a family, with each family's own address of the loopback
/// and without those of links. None where the system doesn't tell them.
pub fn every_address(files: &impl Files, alloc: Global) -> Option<Vec<Addr>>
    ensures { IfSome result (λ found. vec_len found ≤ 66) }
{
    let (mut found, six) = listed_addresses(files, alloc)?;
    let own = [Addr::V4(LOCALHOST), Addr::V6(1)];
    if found.extend_from_slice(&six).is_err() || found.extend_from_slice(&own).is_err() {
        return None;
    }
    Some(found)
}

// The addresses of each family, without those of the loopback and the links.
fn listed_addresses(files: &impl Files, alloc: Global) -> Option<(Vec<Addr>, Vec<Addr>)>
    ensures { IfSome result (λ found. (vec_len found.0 ≤ MOST) × (vec_len found.1 ≤ MOST)) }
{
    let Ok(trie) = read_table(files, alloc, "/proc/net/fib_trie") else {
        return None;
    };
    let mut four = Vec::new(alloc);
    if add_v4(&mut four, str::from_utf8(&trie).unwrap_or("")).is_err() {
        return None;
    }
    let mut six = Vec::new(alloc);
    if let Ok(table) = read_table(files, alloc, "/proc/net/if_inet6") {
        if add_v6(&mut six, str::from_utf8(&table).unwrap_or("")).is_err() {
            return None;
        }
    }
    Some((four, six))
}

fn read_table(files: &impl Files, alloc: Global, name: &str) -> io::Result<Vec<u8>> {
    let mut bytes = Vec::new(alloc);
    File::open(files, name)?
        .take(BYTES)
        .read_to_end(&mut bytes)?;
    Ok(bytes)
}

/// Adds the host's IPv4 addresses of the tree of routes: behind a line `|-- ADDRESS` one that
/// begins with `/32 host LOCAL`. The tree may have them twice.
pub(crate) fn add_v4(found: &mut Vec<Addr>, trie: &str) -> Result<(), NoMemory>
    ensures { vec_len found.new ≤ max MOST (vec_len found.old) }
{
    let mut last = None;
    for line in trie.lines() {
        let line = line.trim_start();
        if let Some(text) = line.strip_prefix("|-- ") {
            last = Addr::read(text.as_bytes());
        } else if line.starts_with("/32 host LOCAL") {
            if let Some(Addr::V4(number)) = last {
                if number >> 24 != 127 {
                    add(found, Addr::V4(number))?;
                }
            }
        }
    }
    Ok(())
}

/// Adds the host's IPv6 addresses of the table of its interfaces: 32 digits, and behind the
/// interface and the prefix the scope, which is 00, and the flags.
pub(crate) fn add_v6(found: &mut Vec<Addr>, table: &str) -> Result<(), NoMemory>
    ensures { vec_len found.new ≤ max MOST (vec_len found.old) }
{
    for line in table.lines() {
        let mut words = line.split_whitespace();
        let (Some(digits), _, _) = (words.next(), words.next(), words.next()) else {
            continue;
        };
        let (Some(scope), Some(flags)) = (words.next(), words.next()) else {
            continue;
        };
        let (Ok(number), Ok(flags)) = (
            u128::from_str_radix(digits, 16),
            u64::from_str_radix(flags, 16),
        ) else {
            continue;
        };
        if scope == "00" && flags & TENTATIVE == 0 {
            add(found, Addr::V6(number))?;
        }
    }
    Ok(())
}

fn add(found: &mut Vec<Addr>, addr: Addr) -> Result<(), NoMemory>
    ensures { vec_len found.new ≤ max MOST (vec_len found.old) }
{
    if found.len() < MOST && !found.contains(&addr) {
        found.push(addr)?;
    }
    Ok(())
}
