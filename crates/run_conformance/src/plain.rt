//! A run that was made, held against the plain evaluator: what each turn sent is what its datagram
//! means under the bundle of its generation, by just the marks of that turn.
ghost use Rattle.std.specs.Prelude.{◌≤◌, length};

use case_fields::CaseFault;
use corefile_blocks::{Bundle, read_blocks};
use corefile_words::{Pair, Pairs};
use dns_data::{Buffer, Bytes, Copies, FileText, FileTexts, Text};
use outside::{Datagram, Mark, ReadOut, RegexMaker, WatchMark};
use plain_chain::{PlainFault, plain_serve};
use std::alloc::Global;

/// What the bundles of a run's generations are read from.
#[derive(Drop)]
pub struct Sources<'a> {
    pub env: &'a [Pair],
    /// The port of keys that name none.
    pub port: u16,
    pub watch: &'a [WatchMark],
}

/// How many turns of a side the plain evaluator answers otherwise. Of a block with an extra it says
/// nothing.
pub fn count_differences(
    alloc: Global,
    sources: &Sources<'_>,
    marks: &[Mark],
) -> Result<u64, CaseFault> {
    let mut count = 0u64;
    let mut rest = marks;
    while let Some((mark, behind)) = rest.split_first() {
        if let Mark::Got(datagram) = mark {
            if !is_meant(alloc, sources, datagram, behind)? {
                count = count.saturating_add(1);
            }
        }
        rest = behind;
    }
    Ok(count)
}

// Whether the turn that begins with these marks is what its datagram means.
fn is_meant(
    alloc: Global,
    sources: &Sources<'_>,
    datagram: &Datagram,
    marks: &[Mark],
) -> Result<bool, CaseFault> {
    let Some((Mark::Pinned(serial), turn)) = marks.split_first() else {
        return Ok(false);
    };
    match bundle_of(alloc, sources, *serial)? {
        Some(bundle) => is_meant_by(alloc, &bundle, sources.port, datagram, turn),
        None => Ok(false),
    }
}

// The same under a bundle, of the marks behind the pin.
fn is_meant_by(
    alloc: Global,
    bundle: &Bundle,
    port: u16,
    datagram: &Datagram,
    turn: &[Mark],
) -> Result<bool, CaseFault> {
    if !bundle.is_readable() {
        return Ok(false);
    }
    let (taken, end) = turn.split_at(taken_of(turn));
    let mut maker = RegexMaker::new();
    match plain_serve(alloc, bundle, port, datagram, taken, &mut maker) {
        Ok(plain) => Ok(plain.used as usize == taken.len() && is_same(sent_in(end), &plain.reply)),
        Err(PlainFault::NoMemory) => Err(CaseFault::NoMemory),
        // It says nothing of blocks with an extra.
        Err(PlainFault::HasExtra) => Ok(true),
        Err(_) => Ok(false),
    }
}

/// Whether the blocks of a generation's bundle have a `reload`, so that its watch looks again.
pub fn reloads(alloc: Global, sources: &Sources<'_>, serial: u64) -> Result<bool, CaseFault> {
    match bundle_of(alloc, sources, serial)? {
        Some(bundle) => has_reload(alloc, &bundle, sources.port),
        None => Ok(false),
    }
}

fn has_reload(alloc: Global, bundle: &Bundle, port: u16) -> Result<bool, CaseFault> {
    if !bundle.is_readable() {
        return Ok(false);
    }
    let Ok(blocks) = read_blocks(alloc, bundle, port) else {
        return Ok(false);
    };
    for block in blocks.as_slice() {
        for directive in block.directives.as_slice() {
            if directive.name.as_str() == "reload" {
                return Ok(true);
            }
        }
    }
    Ok(false)
}

// What was sent by the first mark.
fn sent_in(marks: &[Mark]) -> Option<&Bytes> {
    match marks.first() {
        Some(Mark::Sent(bytes, _)) => Some(bytes),
        _ => None,
    }
}

// How many marks stand in front of the reply, or of the unpin where there is none.
fn taken_of(turn: &[Mark]) -> usize
    ensures { result ≤ length turn.now }
{
    for (index, mark) in turn.iter().enumerate() {
        if matches!(mark, Mark::Sent(_, _) | Mark::Unpinned(_)) {
            return index;
        }
    }
    turn.len()
}

fn is_same(sent: Option<&Bytes>, meant: &Option<Buffer>) -> bool {
    match (sent, meant) {
        (Some(sent), Some(meant)) => sent.as_slice() == meant.as_slice(),
        (None, None) => true,
        _ => false,
    }
}

// The bundle of a generation: what was read behind the last look before it was published.
fn bundle_of(
    alloc: Global,
    sources: &Sources<'_>,
    serial: u64,
) -> Result<Option<Bundle>, CaseFault> {
    let mut group = sources.watch;
    let mut rest = sources.watch;
    while let Some((mark, behind)) = rest.split_first() {
        match mark {
            WatchMark::Look(_, _) => group = behind,
            WatchMark::Published(other) => {
                if *other == serial {
                    return bundle_in(alloc, sources.env, group);
                }
            }
            _ => {}
        }
        rest = behind;
    }
    Ok(None)
}

// The bundle that the reads at the front of these marks give: the first is of the Corefile.
fn bundle_in(
    alloc: Global,
    env: &[Pair],
    marks: &[WatchMark],
) -> Result<Option<Bundle>, CaseFault> {
    let Some((WatchMark::Read(_, ReadOut::Got(conf)), rest)) = marks.split_first() else {
        return Ok(None);
    };
    let conf = conf.copy(alloc)?;
    let env = pairs_of(alloc, env)?;
    let files = files_in(alloc, rest)?;
    Ok(Some(Bundle { conf, env, files }))
}

fn pairs_of(alloc: Global, env: &[Pair]) -> Result<Pairs, CaseFault> {
    let mut pairs = Pairs::new(alloc);
    for pair in env {
        pairs.push(pair.copy(alloc)?)?;
    }
    Ok(pairs)
}

// The files of the reads at the front of these marks.
fn files_in(alloc: Global, marks: &[WatchMark]) -> Result<FileTexts, CaseFault> {
    let mut files = FileTexts::new(alloc);
    for mark in marks {
        let WatchMark::Read(name, out) = mark else {
            break;
        };
        files.push(file_of(alloc, name, out)?)?;
    }
    Ok(files)
}

fn file_of(alloc: Global, name: &Text, out: &ReadOut) -> Result<FileText, CaseFault> {
    let name = name.copy(alloc)?;
    let bytes = match out {
        ReadOut::Got(bytes) => Some(bytes.copy(alloc)?),
        _ => None,
    };
    Ok(FileText { name, bytes })
}
