//! Looks until there are no more.
ghost use Rattle.std.specs.Prelude.{◌≡◌};
ghost use Rattle.reload_watch.specs.Going.{WatchGoesOn};
ghost use Rattle.pin_table.specs.{SamePublisher, count_of, plan_of};
ghost use Rattle.reload_watch.specs.Keeping.{IsKeeping};
ghost use Rattle.reload_watch.specs.Stocked.{KeepsStock};
ghost use Rattle.reload_watch.specs.States.{source_data, watcher_state};
ghost use Rattle.reload_watch.specs.Watcher.{TakesLook};
ghost use Rattle.reload_watch.specs.WatchRun.{Watches};

use crate::look::look_once;
use crate::reloads::{reloads, times_of};
use crate::source::Source;
use crate::watcher::Watcher;
use chain_build::Chain;
use outside::{Look, Watch};
use pin_table::PinTable;
use plugin_api::{Extra, Rulebook};
use run_meaning::WatchEnd;
use std::alloc::Global;
use std::sync::Wait;

/// Looks again and again, each time after the wait that the first `reload` of what serves says,
/// until the watch ends or what serves has no `reload`.
pub fn watch<R: Wait, W: Watch, B: Rulebook, E: Extra>(
    rt: &R,
    alloc: Global,
    watcher: &mut Watcher<W, B, E>,
    table: &PinTable<Chain<B, E>>,
    source: Source<'_>,
) -> WatchEnd
    requires keeping { IsKeeping table.now watcher.old }
    requires first { count_of (plan_of watcher.old.publisher) ≡ 1 }
    ensures keeping { IsKeeping table.now watcher.new }
    ensures own { SamePublisher watcher.old.publisher watcher.new.publisher }
    ensures workers { watcher.new.workers ≡ watcher.old.workers }
    ensures extras { KeepsStock watcher.old watcher.new }
    ensures watches { Watches (source_data source.entry) (watcher_state W.state watcher.old)
        (watcher_state W.state watcher.new) result }
    ensures goes { WatchGoesOn (W.state watcher.old.watch) (W.state watcher.new.watch) }
{
    for _ in rt.forever() {
        if let Some(end) = take_look(alloc, watcher, table, source) {
            return end;
        }
    }
    unreachable!()
}

// Waits for the next look, and makes it, or says why there is none.
fn take_look<W: Watch, B: Rulebook, E: Extra>(
    alloc: Global,
    watcher: &mut Watcher<W, B, E>,
    table: &PinTable<Chain<B, E>>,
    source: Source<'_>,
) -> Option<WatchEnd>
    requires keeping { IsKeeping table.now watcher.old }
    ensures keeping { IsKeeping table.now watcher.new }
    ensures own { SamePublisher watcher.old.publisher watcher.new.publisher }
    ensures workers { watcher.new.workers ≡ watcher.old.workers }
    ensures extras { KeepsStock watcher.old watcher.new }
    ensures takes { TakesLook (source_data source.entry) (watcher_state W.state watcher.old)
        (watcher_state W.state watcher.new) result }
    ensures goes { WatchGoesOn (W.state watcher.old.watch) (W.state watcher.new.watch) }
{
    if !reloads(watcher.current.blocks.as_slice()) {
        return Some(WatchEnd::NoReload);
    }
    let times = times_of(watcher.current.blocks.as_slice());
    match watcher.watch.look(times.interval, times.jitter) {
        Look::Look => {
            look_once(alloc, watcher, table, source);
            None
        }
        Look::End => Some(WatchEnd::End),
    }
}
