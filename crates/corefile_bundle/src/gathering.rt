ghost use Rattle.std.specs.Prelude.{◌≡◌, ◌≤◌, ◌+◌, ℕ, List, Err, IfOk, OnOk};
ghost use Rattle.dns_data.specs.declared.limit.Limit.TheVariants as limit;
ghost use Rattle.dns_data.specs.declared.limit.TheConstants as limits;
ghost use Rattle.outside.specs.{Rose, WatchStays};
ghost use Rattle.corefile_blocks.specs.{IsReadable, Seeks};
ghost use Rattle.corefile_bundle.specs.Again.{IsGathered};
ghost use Rattle.corefile_bundle.specs.Gathering.{AreWanted, TellsGathering, after_corefile};
ghost use Rattle.corefile_bundle.specs.Gathering.{after_read, bundle_bytes, next_file, over};
ghost use Rattle.corefile_bundle.specs.Gathering.{size_of, source_of};
ghost use Rattle.corefile_bundle.specs.Steps.{IsSmall, TakesOne, TellsRest};
ghost use Rattle.corefile_bundle.specs.declared.fault.GatherFault.TheVariants as fault;

use crate::fault::GatherFault;
use corefile_blocks::{Bundle, Seeker};
use corefile_words::{Pair, Pairs};
use dns_data::{Bytes, Copies, FileText, Limit, NoMemory, Seq, Text, limit};
use outside::{ReadOut, Watch};
use std::alloc::Global;

/// Reads the Corefile `conf`, and then each file that is wanted, once, until the bundle has all
/// that it wants.
pub fn gather<W: Watch>(
    alloc: Global,
    watch: &mut W,
    conf: &Text,
    env: &[Pair],
) -> Result<Bundle, GatherFault>
    ensures told { TellsGathering (source_of conf.now env.now) (W.state watch.old)
        (W.state watch.new) result }
    ensures stays { WatchStays (W.state watch.old) (W.state watch.new) }
    ensures failed { (name : List ℕ) → result ≡ Err (GatherFault.ReadFailed name)
        → Rose (W.state watch.old).counts.reads (W.state watch.new).counts.reads }
    ensures readable { IfOk result (λ bundle. IsReadable bundle) }
    ensures whole { IfOk result (λ bundle. AreWanted bundle) }
    ensures gathered { IfOk result (λ bundle. IsGathered bundle) }
{
    match read_corefile(alloc, watch, conf, env) {
        Ok(bundle) => gather_rest(alloc, watch, bundle),
        Err(fault) => Err(fault),
    }
}

// Reads each file that is wanted and not there, until the bundle has all that it wants.
pub(crate) fn gather_rest<W: Watch>(
    alloc: Global,
    watch: &mut W,
    bundle: Bundle,
) -> Result<Bundle, GatherFault>
    requires small { IsSmall bundle }
    ensures told { TellsRest bundle (W.state watch.old) (W.state watch.new) result }
    ensures stays { WatchStays (W.state watch.old) (W.state watch.new) }
    ensures failed { (name : List ℕ) → result ≡ Err (GatherFault.ReadFailed name)
        → Rose (W.state watch.old).counts.reads (W.state watch.new).counts.reads }
    ensures readable { IfOk result (λ bundle. IsReadable bundle) }
{
    let mut bundle = bundle;
    let mut seeker = match Seeker::new(alloc, &bundle) {
        Ok(seeker) => seeker,
        Err(NoMemory) => return Err(GatherFault::NoMemory),
    };
    loop {
        let name = match next_file(alloc, &mut seeker, &bundle) {
            Ok(Some(name)) => name,
            Ok(None) => return Ok(bundle),
            Err(NoMemory) => return Err(GatherFault::NoMemory),
        };
        if limit::FILES <= bundle.files.len() {
            return Err(too_many_files());
        }
        bundle = match read_file(watch, bundle, name) {
            Ok(behind) => behind,
            Err(fault) => return Err(fault),
        };
    }
}

// More files than a bundle may have.
pub(crate) fn too_many_files() -> GatherFault
    ensures { result ≡ fault.TooMany limit.Files (limits.FILES + 1) }
{
    GatherFault::TooMany {
        what: Limit::Files,
        number: limit::FILES as u64 + 1,
    }
}

// Reads the Corefile.
pub(crate) fn read_corefile<W: Watch>(
    alloc: Global,
    watch: &mut W,
    conf: &Text,
    env: &[Pair],
) -> Result<Bundle, GatherFault>
    ensures takes { TakesOne conf.now (after_corefile (source_of conf.now env.now))
        (W.state watch.old) (W.state watch.new) result }
    ensures stays { WatchStays (W.state watch.old) (W.state watch.new) }
    ensures failed { (name : List ℕ) → result ≡ Err (GatherFault.ReadFailed name)
        → Rose (W.state watch.old).counts.reads (W.state watch.new).counts.reads }
{
    let env = copied(alloc, env)?;
    match watch.read(conf) {
        ReadOut::Got(conf) => {
            if let Some(fault) = over(conf.len(), conf.len()) {
                return Err(fault);
            }
            Ok(Bundle {
                conf,
                env,
                files: Seq::new(alloc),
            })
        }
        ReadOut::Missing => Err(GatherFault::NoCorefile),
        ReadOut::Failed => Err(GatherFault::ReadFailed {
            name: conf.copy(alloc)?,
        }),
        ReadOut::NoMemory => Err(GatherFault::NoMemory),
    }
}

// The variables of the environment.
fn copied(alloc: Global, env: &[Pair]) -> Result<Pairs, NoMemory>
    ensures { IfOk result (λ pairs. pairs ≡ env.now) }
{
    let mut pairs = Seq::new(alloc);
    for pair in env {
        pairs.push(pair.copy(alloc)?)?;
    }
    Ok(pairs)
}

// The first file that a bundle wants and doesn't have.
#[tactic(auto, unfolding(crate::specs::Gathering::next_file))]
fn next_file(alloc: Global, seeker: &mut Seeker, bundle: &Bundle) -> Result<Option<Text>, NoMemory>
    requires readable { IsReadable bundle.now }
    requires seeks { Seeks bundle.now seeker.old }
    ensures name { IfOk result (λ name. name ≡ next_file bundle.now) }
    ensures seeks { OnOk result (Seeks bundle.now seeker.new) }
{
    seeker.next(alloc, bundle)
}

// Reads a file of a bundle.
pub(crate) fn read_file<W: Watch>(
    watch: &mut W,
    bundle: Bundle,
    name: Text,
) -> Result<Bundle, GatherFault>
    requires { bundle_bytes bundle ≤ limits.BUNDLE_BYTES }
    ensures takes { TakesOne name (after_read bundle name) (W.state watch.old)
        (W.state watch.new) result }
    ensures stays { WatchStays (W.state watch.old) (W.state watch.new) }
    ensures failed { (name : List ℕ) → result ≡ Err (GatherFault.ReadFailed name)
        → Rose (W.state watch.old).counts.reads (W.state watch.new).counts.reads }
{
    let mut bundle = bundle;
    match watch.read(&name) {
        ReadOut::Got(bytes) => {
            let total = bundle_bytes(&bundle) + bytes.len();
            if let Some(fault) = over(bytes.len(), total) {
                return Err(fault);
            }
            bundle.files.push(FileText {
                name,
                bytes: Some(bytes),
            })?;
        }
        ReadOut::Missing => bundle.files.push(FileText { name, bytes: None })?,
        ReadOut::Failed => return Err(GatherFault::ReadFailed { name }),
        ReadOut::NoMemory => return Err(GatherFault::NoMemory),
    }
    Ok(bundle)
}

// How many bytes a bundle has.
fn bundle_bytes(bundle: &Bundle) -> usize
    requires { bundle_bytes bundle.now ≤ limits.BUNDLE_BYTES }
    ensures { result ≡ bundle_bytes bundle.now }
{
    let mut bytes = bundle.conf.len();
    let mut rest = bundle.files.as_slice();
    while let Some((file, behind)) = rest.split_first() {
        bytes += size_of(&file.bytes);
        rest = behind;
    }
    bytes
}

// How many bytes a file has.
fn size_of(bytes: &Option<Bytes>) -> usize
    ensures { result ≡ size_of bytes.now }
{
    match bytes {
        Some(bytes) => bytes.len(),
        None => 0,
    }
}

// The limit that a read passes.
fn over(size: usize, total: usize) -> Option<GatherFault>
    ensures { result ≡ over size total }
{
    if limit::FILE_BYTES < size {
        return Some(GatherFault::TooMany {
            what: Limit::FileBytes,
            number: limit::FILE_BYTES as u64 + 1,
        });
    }
    if limit::BUNDLE_BYTES < total {
        return Some(GatherFault::TooMany {
            what: Limit::BundleBytes,
            number: total as u64,
        });
    }
    None
}
