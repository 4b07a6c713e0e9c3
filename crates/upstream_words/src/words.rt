//! The upstreams that the words of a directive name.
ghost use Rattle.std.specs.Prelude.{◌≡◌, ◌≤◌, ◌<◌, ◌+◌, ◌++◌, length, IfOk, OnOk, option_map};
ghost use Rattle.upstream_words.specs.Words.{Reads, by_file, file_in, is_file, served, with_more};
ghost use Rattle.upstream_words.specs.Words.{with_word, with_words};

use crate::servers::add_servers;
use crate::upstream::read_upstream;
use dns_data::limit::{Limit, UPSTREAMS};
use dns_data::{FileText, NoMemory, Seq, Text};
use outside::Upstream;
use plugin_api::{DirectiveFault, DirectiveWhy};
use std::alloc::Global;

/// Adds the upstreams that words name, by themselves and by files, or tells which word of the
/// directive at this line is the first that doesn't fit. Each word adds one or more.
pub fn read_words(
    alloc: Global,
    upstreams: Seq<Upstream>,
    line: u32,
    files: &[FileText],
    words: &[Text],
) -> Result<Seq<Upstream>, DirectiveFault>
    requires few { length upstreams ≤ 15 }
    ensures reads { Reads (with_words upstreams line files.now words.now) result }
    ensures grows { IfOk result (λ us. (length upstreams ≤ length us) × (length us ≤ 15)) }
{
    let Some((word, rest)) = words.split_first() else {
        return Ok(upstreams);
    };
    let upstreams = read_word(alloc, upstreams, line, files, word.as_str().as_bytes())?;
    read_words(alloc, upstreams, line, files, rest)
}

/// Adds the upstreams that a word names, or tells why it doesn't fit.
pub fn read_word(
    alloc: Global,
    upstreams: Seq<Upstream>,
    line: u32,
    files: &[FileText],
    word: &[u8],
) -> Result<Seq<Upstream>, DirectiveFault>
    requires few { length upstreams ≤ 15 }
    ensures reads { Reads (with_word upstreams line files.now word.now) result }
    ensures grows { IfOk result (λ us. (length upstreams < length us) × (length us ≤ 15)) }
{
    if is_file(word) {
        return read_file(alloc, upstreams, line, file_in(files, word));
    }
    let Some(upstream) = read_upstream(word) else {
        return Err(DirectiveFault::Why {
            line,
            why: DirectiveWhy::Net,
        });
    };
    add_more(upstreams, &[upstream])
}

// Whether a word names a file.
fn is_file(word: &[u8]) -> bool
    ensures { result ≡ is_file word.now }
{
    match word.split_first() {
        Some((byte, _)) => *byte == b'/',
        None => false,
    }
}

// What the file of a name has, where it isn't missing.
fn file_in<'a>(files: &'a [FileText], name: &[u8]) -> Option<&'a [u8]>
    ensures { option_map (λ text. text.now) result ≡ file_in name.now files.now }
{
    let (file, others) = files.split_first()?;
    if file.name.as_str().as_bytes() == name {
        return match &file.bytes {
            Some(bytes) => Some(bytes.as_slice()),
            None => None,
        };
    }
    file_in(others, name)
}

fn read_file(
    alloc: Global,
    upstreams: Seq<Upstream>,
    line: u32,
    text: Option<&[u8]>,
) -> Result<Seq<Upstream>, DirectiveFault>
    requires few { length upstreams ≤ 15 }
    ensures reads { Reads (by_file upstreams line (option_map (λ t. t.now) text.entry)) result }
    ensures grows { IfOk result (λ us. (length upstreams < length us) × (length us ≤ 15)) }
{
    let Some(text) = text else {
        return Err(DirectiveFault::Why {
            line,
            why: DirectiveWhy::NoFile,
        });
    };
    let mut servers = Seq::new(alloc);
    add_servers(&mut servers, text)?;
    add_served(upstreams, line, servers.as_slice())
}

// Adds the upstreams of a file.
fn add_served(
    upstreams: Seq<Upstream>,
    line: u32,
    servers: &[Upstream],
) -> Result<Seq<Upstream>, DirectiveFault>
    requires few { length upstreams ≤ 15 }
    ensures reads { Reads (served upstreams line servers.now) result }
    ensures grows { IfOk result (λ us. (length upstreams < length us) × (length us ≤ 15)) }
{
    if servers.is_empty() {
        return Err(DirectiveFault::Why {
            line,
            why: DirectiveWhy::NoUpstream,
        });
    }
    add_more(upstreams, servers)
}

// Adds upstreams, where they aren't too many.
fn add_more(
    mut upstreams: Seq<Upstream>,
    more: &[Upstream],
) -> Result<Seq<Upstream>, DirectiveFault>
    requires few { length upstreams ≤ 15 }
    ensures reads { Reads (with_more upstreams more.now) result }
    ensures grows { IfOk result
        (λ us. (length us ≡ length upstreams + length more.now) × (length us ≤ 15)) }
{
    if UPSTREAMS < more.len() || UPSTREAMS - more.len() < upstreams.len() {
        return Err(DirectiveFault::TooMany {
            what: Limit::Upstreams,
            number: UPSTREAMS as u64 + 1,
        });
    }
    add_all(&mut upstreams, more)?;
    Ok(upstreams)
}

fn add_all(upstreams: &mut Seq<Upstream>, more: &[Upstream]) -> Result<(), NoMemory>
    ensures { OnOk result (upstreams.new ≡ upstreams.old ++ more.now) }
{
    let Some((first, others)) = more.split_first() else {
        return Ok(());
    };
    upstreams.push(*first)?;
    add_all(upstreams, others)
}
