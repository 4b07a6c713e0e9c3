//! One look for a changed configuration.
ghost use Rattle.std.specs.Prelude.{◌≡◌, ℕ, List, Err, true};
ghost use Rattle.std.specs.Arc.{arc_value};
ghost use Rattle.outside.specs.{Rose, WatchStays};
ghost use Rattle.corefile_blocks.specs.{IsReadable};
ghost use Rattle.corefile_bundle.specs.{IfOther, IsGathered, TellsGathering, read_again};
ghost use Rattle.run_meaning.specs.Reloads.{reloads};
ghost use Rattle.reload_watch.specs.Keeping.{IsKeeping};
ghost use Rattle.reload_watch.specs.Look.{starved_by};
ghost use Rattle.reload_watch.specs.Looked.{HasLooked, LooksOn};
ghost use Rattle.reload_watch.specs.States.{source_data};

use crate::found::{Found, find};
use crate::publishing::{note_look, publish_next, sweep};
use crate::reloads::reloads;
use crate::source::Source;
use crate::watcher::Watcher;
use chain_build::{Chain, Plans};
use corefile_bundle::{GatherFault, Regathered, regather};
use outside::Watch;
use pin_table::PinTable;
use plugin_api::{Extra, Rulebook};
use run_meaning::Looking;
use std::alloc::Global;

/// Looks once for a changed configuration: sweeps the slots of replaced generations, reads the
/// Corefile and the files that it names, publishes what they mean where that may serve, and notes
/// the line of the answer. Whatever the answer but `Published`, what serves stays. Want of memory
/// is counted.
pub fn look_once<W: Watch, B: Rulebook, E: Extra>(
    alloc: Global,
    watcher: &mut Watcher<W, B, E>,
    table: &PinTable<Chain<B, E>>,
    source: Source<'_>,
) -> Looking
    requires keeping { IsKeeping table.now watcher.old }
    ensures keeping { IsKeeping table.now watcher.new }
    ensures look { HasLooked W.state (source_data source.entry) watcher.old watcher.new result }
    ensures starved { watcher.new.starved ≡ starved_by result watcher.old.starved }
{
    let looking = look(alloc, watcher, table, source);
    if let Looking::NoMemory = looking {
        watcher.starved = watcher.starved.saturating_add(1);
    }
    looking
}

// The look, which counts nothing.
fn look<W: Watch, B: Rulebook, E: Extra>(
    alloc: Global,
    watcher: &mut Watcher<W, B, E>,
    table: &PinTable<Chain<B, E>>,
    source: Source<'_>,
) -> Looking
    requires keeping { IsKeeping table.now watcher.old }
    ensures keeping { IsKeeping table.now watcher.new }
    ensures look { HasLooked W.state (source_data source.entry) watcher.old watcher.new result }
    ensures starved { watcher.new.starved ≡ watcher.old.starved }
{
    if !reloads(watcher.current.blocks.as_slice()) {
        return Looking::NoReload;
    }
    sweep(watcher, table);
    look_on(alloc, watcher, table, source)
}

// A look behind its first sweep.
fn look_on<W: Watch, B: Rulebook, E: Extra>(
    alloc: Global,
    watcher: &mut Watcher<W, B, E>,
    table: &PinTable<Chain<B, E>>,
    source: Source<'_>,
) -> Looking
    requires keeping { IsKeeping table.now watcher.old }
    requires again { reloads (arc_value watcher.old.current).blocks ≡ true }
    ensures keeping { IsKeeping table.now watcher.new }
    ensures look { LooksOn W.state (source_data source.entry) watcher.old watcher.new result }
    ensures starved { watcher.new.starved ≡ watcher.old.starved }
{
    let gathered = gather_again(alloc, &mut watcher.watch, &watcher.current, source);
    let found = find(
        alloc,
        gathered,
        &watcher.current,
        watcher.stock.judges.as_slice(),
        &mut watcher.watch,
    );
    match found {
        Found::Kept(looking) => note_look(alloc, &mut watcher.watch, looking),
        Found::Next(plans) => publish_next(alloc, watcher, table, plans),
    }
}

// Reads the bundle again by which these plans serve.
fn gather_again<W: Watch, B: Rulebook>(
    alloc: Global,
    watch: &mut W,
    current: &Plans<B>,
    source: Source<'_>,
) -> Result<Regathered, GatherFault>
    requires gathered { IsGathered current.now.bundle }
    ensures told { TellsGathering (source_data source.entry) (W.state watch.old)
        (W.state watch.new) (read_again current.now.bundle result) }
    ensures stays { WatchStays (W.state watch.old) (W.state watch.new) }
    ensures failed { (name : List ℕ) → result ≡ Err (GatherFault.ReadFailed name)
        → Rose (W.state watch.old).counts.reads (W.state watch.new).counts.reads }
    ensures readable { IfOther result (λ bundle. IsReadable bundle) }
{
    regather(alloc, watch, &current.bundle, source.conf, source.env)
}
