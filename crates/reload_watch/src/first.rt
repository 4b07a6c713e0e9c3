ghost use Rattle.std.specs.Prelude.{◌≡◌, map};
ghost use Rattle.chain_meaning.specs.{ground_at};
ghost use Rattle.plugin_api.specs.{Obey};
ghost use Rattle.reload_watch.specs.Going.{WatchGoesOn, refusals_first};
ghost use Rattle.reload_watch.specs.Opening.{ReadsFirst};
ghost use Rattle.reload_watch.specs.States.{footing_on, source_data};

use crate::fault::{ReadFault, read_fault};
use crate::source::Source;
use chain_build::{CheckFault, Plans, check};
use corefile_bundle::gather;
use outside::Watch;
use plugin_api::{Extra, Rulebook};
use std::alloc::Global;

/// Reads the first bundle over a watch, and what it serves by. The judges are an extra of each name
/// that the program brings.
pub fn read_first<W: Watch, B: Rulebook, E: Extra>(
    alloc: Global,
    watch: &mut W,
    source: Source<'_>,
    default_port: u16,
    judges: &[E],
) -> Result<Plans<B>, ReadFault>
    requires judges { Obey B.taken B.said E.title E.takes E.ruling judges.now }
    ensures reads { ReadsFirst (source_data source.entry)
        (footing_on B.taken B.said (ground_at default_port (map E.title judges.now)))
        (W.state watch.old) (W.state watch.new) result }
    ensures goes { WatchGoesOn (W.state watch.old) (W.state watch.new) }
    ensures refusals { (W.state watch.new).refusals
        ≡ refusals_first result (W.state watch.old).refusals }
{
    match gather(alloc, watch, source.conf, source.env) {
        Ok(bundle) => match check(alloc, bundle, default_port, judges, watch) {
            Ok(plans) => Ok(plans),
            Err(CheckFault::Refused(why)) => Err(ReadFault::Refused(why)),
            Err(CheckFault::NoMemory) => Err(ReadFault::NoMemory),
        },
        Err(fault) => Err(read_fault(fault)),
    }
}
