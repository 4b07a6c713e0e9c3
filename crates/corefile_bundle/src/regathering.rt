ghost use Rattle.std.specs.Prelude.{◌≡◌, ◌↔◌, ℕ, List, [], Err, IsTrue};
ghost use Rattle.outside.specs.{Rose, WatchStays};
ghost use Rattle.corefile_blocks.specs.{IsReadable};
ghost use Rattle.corefile_bundle.specs.Again.{IfOther, IsGathered, others, read_again};
ghost use Rattle.corefile_bundle.specs.Gathering.{TellsGathering, source_of};
ghost use Rattle.corefile_bundle.specs.Steps.{IsSmall, TellsRest};

use crate::fault::GatherFault;
use crate::gathering::{gather_rest, read_corefile, read_file, too_many_files};
use corefile_blocks::Bundle;
use corefile_words::Pair;
use dns_data::{Bytes, Copies, Text, are_equal, limit};
use outside::Watch;
use std::alloc::Global;

/// What is read again.
#[derive(Debug, Drop)]
pub enum Regathered {
    /// The bundle is as it was, byte for byte.
    Same,
    Other(Bundle),
}

/// Reads what `gather` reads, where `last` was gathered before. Up to the first byte that differs
/// the files that are wanted are known from `last`, and no word is read.
pub fn regather<W: Watch>(
    alloc: Global,
    watch: &mut W,
    last: &Bundle,
    conf: &Text,
    env: &[Pair],
) -> Result<Regathered, GatherFault>
    requires gathered { IsGathered last.now }
    ensures told { TellsGathering (source_of conf.now env.now) (W.state watch.old)
        (W.state watch.new) (read_again last.now result) }
    ensures stays { WatchStays (W.state watch.old) (W.state watch.new) }
    ensures failed { (name : List ℕ) → result ≡ Err (GatherFault.ReadFailed name)
        → Rose (W.state watch.old).counts.reads (W.state watch.new).counts.reads }
    ensures readable { IfOther result (λ bundle. IsReadable bundle) }
    ensures gathered { IfOther result (λ bundle. IsGathered bundle) }
{
    let bundle = match read_corefile(alloc, watch, conf, env) {
        Ok(bundle) => bundle,
        Err(fault) => return Err(fault),
    };
    if !is_same_text(&bundle, last) {
        return other(gather_rest(alloc, watch, bundle));
    }
    reread_files(alloc, watch, last, bundle)
}

// Reads the files of a bundle again, behind its Corefile, which is as it was.
fn reread_files<W: Watch>(
    alloc: Global,
    watch: &mut W,
    last: &Bundle,
    bundle: Bundle,
) -> Result<Regathered, GatherFault>
    requires gathered { IsGathered last.now }
    requires conf { bundle.conf ≡ last.now.conf }
    requires env { bundle.env ≡ last.now.env }
    requires none { bundle.files ≡ [] }
    requires small { IsSmall bundle }
    ensures told { TellsRest bundle (W.state watch.old) (W.state watch.new)
        (read_again last.now result) }
    ensures stays { WatchStays (W.state watch.old) (W.state watch.new) }
    ensures failed { (name : List ℕ) → result ≡ Err (GatherFault.ReadFailed name)
        → Rose (W.state watch.old).counts.reads (W.state watch.new).counts.reads }
    ensures readable { IfOther result (λ bundle. IsReadable bundle) }
{
    let mut bundle = bundle;
    let mut rest = last.files.as_slice();
    while let Some((file, others)) = rest.split_first() {
        let Ok(name) = file.name.copy(alloc) else {
            return Err(GatherFault::NoMemory);
        };
        let count = bundle.files.len();
        if limit::FILES <= count {
            return Err(too_many_files());
        }
        bundle = match read_file(watch, bundle, name) {
            Ok(behind) => behind,
            Err(fault) => return Err(fault),
        };
        if !is_same_file(&bundle.files.at(count).bytes, &file.bytes) {
            return other(gather_rest(alloc, watch, bundle));
        }
        rest = others;
    }
    Ok(Regathered::Same)
}

// A bundle that isn't as it was, or a fault.
fn other(gathered: Result<Bundle, GatherFault>) -> Result<Regathered, GatherFault>
    ensures { result ≡ others gathered }
{
    match gathered {
        Ok(bundle) => Ok(Regathered::Other(bundle)),
        Err(fault) => Err(fault),
    }
}

// Whether two bundles have the same Corefile, and the same variables in their order.
fn is_same_text(a: &Bundle, b: &Bundle) -> bool
    ensures { IsTrue result ↔ ((a.now.conf ≡ b.now.conf) × (a.now.env ≡ b.now.env)) }
{
    are_equal(a.conf.as_slice(), b.conf.as_slice())
        && is_same_env(a.env.as_slice(), b.env.as_slice())
}

fn is_same_env(mut a: &[Pair], mut b: &[Pair]) -> bool
    ensures { IsTrue result ↔ (a.entry.now ≡ b.entry.now) }
{
    while let Some((first, others)) = a.split_first() {
        let Some((second, more)) = b.split_first() else {
            return false;
        };
        if !first.name.is(second.name.as_str()) {
            return false;
        }
        if !first.value.is(second.value.as_str()) {
            return false;
        }
        a = others;
        b = more;
    }
    b.len() == 0
}

// Whether two files have the same bytes, or both are missing.
fn is_same_file(a: &Option<Bytes>, b: &Option<Bytes>) -> bool
    ensures { IsTrue result ↔ (a.now ≡ b.now) }
{
    match (a, b) {
        (Some(a), Some(b)) => are_equal(a.as_slice(), b.as_slice()),
        (None, None) => true,
        _ => false,
    }
}
