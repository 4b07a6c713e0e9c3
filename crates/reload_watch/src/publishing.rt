//! The publication of what was read, and the notes of looks.
ghost use Rattle.std.specs.Prelude.{◌≡◌, ◌≤◌, ◌<◌, ◌+◌, ◌*◌, ℕ, List, [], ◌∷◌, length};
ghost use Rattle.std.specs.Prelude.{IfOk, OnErr};
ghost use Rattle.std.specs.Vec.{vec_len, vec_capacity};
ghost use Rattle.corefile_bundle.specs.{IsGathered};
ghost use Rattle.outside.specs.declared.mark.WatchMark.TheVariants as mark;
ghost use Rattle.outside.specs.States.{WatchStays};
ghost use Rattle.outside.specs.WatchMarks.{AddsWatch};
ghost use Rattle.all_home.specs.AllHome.{AreAccounted};
ghost use Rattle.chain_build.specs.{ArePlans, chain_extras, chain_identity, chain_log, ground_of};
ghost use Rattle.chain_build.specs.Naming.{AbsentFrom, AddsCaches, Precedes};
ghost use Rattle.chain_build.specs.Workers.{chain_lents};
ghost use Rattle.lent_caches.specs.Held.{AreApart, caches_data};
ghost use Rattle.lent_caches.specs.Ledger.{Each};
ghost use Rattle.extra_stock.specs.{in_chains, names_weigh, seats_of_chains};
ghost use Rattle.plugin_api.specs.{Obey};
ghost use Rattle.pin_table.specs.{AreFilled, AreNew, IsFound, IsFreeSlot, IsStanding};
ghost use Rattle.pin_table.specs.{IsPublisherOf, SamePublisher, count_of, plan_of};
ghost use Rattle.std.specs.Arc.{arc_value};
ghost use Rattle.reload_watch.specs.Homes.{IsOut, KeepsCaches};
ghost use Rattle.reload_watch.specs.Keeping.{IsKeeping};
ghost use Rattle.reload_watch.specs.Naming.{NamesNext};
ghost use Rattle.reload_watch.specs.Look.{Frees, LeavesSlot, NotesLine, NotesLook};
ghost use Rattle.reload_watch.specs.Look.{PublishesNext, Searches};
ghost use Rattle.reload_watch.specs.Placing.{IsPlaced};
ghost use Rattle.reload_watch.specs.Publishing.{AddsGeneration, KeepsPast};
ghost use Rattle.reload_watch.specs.Shortage.{SaysStock, found_in};
ghost use Rattle.reload_watch.specs.States.{serving_of};
ghost use Rattle.reload_watch.specs.Stocked.{HasPlaces, KeepsStock, out_weighs, seats_out};
ghost use Rattle.reload_watch.specs.Sweeps.{KeepsSweeps};

use crate::watcher::Watcher;
use chain_build::{BuildFault, Chain, Naming, Plans, build, name_caches, take_back};
use dns_data::NoMemory;
use extra_stock::Stock;
use lent_caches::Caches;
use outside::Watch;
use pin_core::MOST_SERIALS;
use pin_table::{FreeSlot, PinTable, Published, Publisher};
use plugin_api::{Extra, Rulebook};
use run_meaning::Looking;
use std::alloc::Global;
use std::sync::Arc;

// Notes the line of an answer, where it has one.
pub(crate) fn note_look<W: Watch>(alloc: Global, watch: &mut W, looking: Looking) -> Looking
    ensures notes { NotesLook (W.state watch.old) (W.state watch.new) looking result }
    ensures stays { WatchStays (W.state watch.old) (W.state watch.new) }
{
    let Ok(line) = format!(in alloc; "{looking}") else {
        return Looking::NoMemory;
    };
    note_line(watch, line.as_bytes());
    looking
}

// Notes a line that isn't empty. One that doesn't go out changes nothing.
fn note_line<W: Watch>(watch: &mut W, line: &[u8])
    ensures notes { NotesLine (W.state watch.old) (W.state watch.new) line.now }
    ensures stays { WatchStays (W.state watch.old) (W.state watch.new) }
{
    if 0 < line.len() {
        let _ = watch.note(line);
    }
}

// Sweeps the slots of replaced generations, and brings home what they have. What is free then is
// no matter.
pub(crate) fn sweep<W: Watch, B: Rulebook, E: Extra>(
    watcher: &mut Watcher<W, B, E>,
    table: &PinTable<Chain<B, E>>,
)
    requires keeping { IsKeeping table.now watcher.old }
    ensures keeping { IsKeeping table.now watcher.new }
    ensures own { SamePublisher watcher.old.publisher watcher.new.publisher }
    ensures keeps { KeepsPast (plan_of watcher.old.publisher) (plan_of watcher.new.publisher) }
    ensures swept { (swept : FreeSlot)
        × Frees (plan_of watcher.old.publisher) swept (plan_of watcher.new.publisher) }
    ensures sweeps { KeepsSweeps (plan_of watcher.old.publisher).sweeps
        (plan_of watcher.new.publisher).sweeps }
    ensures extras { KeepsStock watcher.old watcher.new }
    ensures watch { watcher.new.watch ≡ watcher.old.watch }
    ensures current { watcher.new.current ≡ watcher.old.current }
    ensures workers { watcher.new.workers ≡ watcher.old.workers }
    ensures starved { watcher.new.starved ≡ watcher.old.starved }
{
    let _ = free_slot(
        table,
        &mut watcher.publisher,
        &mut watcher.home,
        &mut watcher.stock,
        &mut watcher.caches,
    );
}

// Publishes plans, unless serials are spent or all slots pinned. The slots are swept first, and the
// extras that came home are spare again.
pub(crate) fn publish_next<W: Watch, B: Rulebook, E: Extra>(
    alloc: Global,
    watcher: &mut Watcher<W, B, E>,
    table: &PinTable<Chain<B, E>>,
    plans: Plans<B>,
) -> Looking
    requires keeping { IsKeeping table.now watcher.old }
    requires are { ArePlans B.taken B.said plans }
    requires gathered { IsGathered plans.bundle }
    requires basis { ground_of plans ≡ ground_of (arc_value watcher.old.current) }
    ensures keeping { IsKeeping table.now watcher.new }
    ensures own { SamePublisher watcher.old.publisher watcher.new.publisher }
    ensures workers { watcher.new.workers ≡ watcher.old.workers }
    ensures publishes { PublishesNext (serving_of watcher.old) (serving_of watcher.new)
        (W.state watcher.old.watch) (W.state watcher.new.watch) plans result }
    ensures stock { SaysStock watcher.old.workers plans.extras (found_in watcher.old watcher.new)
        result }
    ensures searches { Searches (plan_of watcher.old.publisher)
        (plan_of watcher.new.publisher) result }
    ensures sweeps { KeepsSweeps (plan_of watcher.old.publisher).sweeps
        (plan_of watcher.new.publisher).sweeps }
    ensures extras { KeepsStock watcher.old watcher.new }
    ensures starved { watcher.new.starved ≡ watcher.old.starved }
    ensures stays { WatchStays (W.state watcher.old.watch) (W.state watcher.new.watch) }
{
    if table.published(&watcher.publisher) >= MOST_SERIALS {
        return note_look(alloc, &mut watcher.watch, Looking::SerialsSpent);
    }
    let found = free_slot(
        table,
        &mut watcher.publisher,
        &mut watcher.home,
        &mut watcher.stock,
        &mut watcher.caches,
    );
    match found {
        FreeSlot::Free(slot) => publish_in(alloc, watcher, table, plans, slot),
        FreeSlot::AllPinned(first, second, third) => {
            let pinned = Looking::AllPinned(first, second, third);
            note_look(alloc, &mut watcher.watch, pinned)
        }
    }
}

// Publishes plans in a free slot, unless the stock is short. The line and the chains are made
// first, so that want of memory publishes nothing.
fn publish_in<W: Watch, B: Rulebook, E: Extra>(
    alloc: Global,
    watcher: &mut Watcher<W, B, E>,
    table: &PinTable<Chain<B, E>>,
    plans: Plans<B>,
    slot: u32,
) -> Looking
    requires keeping { IsKeeping table.now watcher.old }
    requires few { count_of (plan_of watcher.old.publisher) < MOST_SERIALS }
    requires free { IsFreeSlot (plan_of watcher.old.publisher) slot }
    requires are { ArePlans B.taken B.said plans }
    requires gathered { IsGathered plans.bundle }
    requires basis { ground_of plans ≡ ground_of (arc_value watcher.old.current) }
    ensures keeping { IsKeeping table.now watcher.new }
    ensures own { SamePublisher watcher.old.publisher watcher.new.publisher }
    ensures workers { watcher.new.workers ≡ watcher.old.workers }
    ensures publishes { PublishesNext (serving_of watcher.old) (serving_of watcher.new)
        (W.state watcher.old.watch) (W.state watcher.new.watch) plans result }
    ensures stock { SaysStock watcher.old.workers plans.extras (found_in watcher.old watcher.new)
        result }
    ensures slot { LeavesSlot (plan_of watcher.old.publisher)
        (plan_of watcher.new.publisher) result }
    ensures same { (plan_of watcher.new.publisher).sweeps
        ≡ (plan_of watcher.old.publisher).sweeps }
    ensures extras { KeepsStock watcher.old watcher.new }
    ensures starved { watcher.new.starved ≡ watcher.old.starved }
    ensures stays { WatchStays (W.state watcher.old.watch) (W.state watcher.new.watch) }
{
    let serial = table.published(&watcher.publisher);
    let looking = Looking::Published(serial);
    let Ok(line) = format!(in alloc; "{looking}") else {
        return Looking::NoMemory;
    };
    let naming = Naming {
        alloc,
        serial,
        before: watcher.current.generation(),
        seed: watcher.seed,
    };
    let Ok(next) = name_next(&naming, plans, &mut watcher.caches) else {
        return Looking::NoMemory;
    };
    let (stock, caches) = (&mut watcher.stock, &mut watcher.caches);
    match build(alloc, &next, serial, watcher.workers, stock, caches) {
        Ok(chains) => {
            publish(table, &mut watcher.publisher, slot, chains);
            watcher.current = next;
            show_published(&mut watcher.watch, &watcher.publisher, serial);
            note_line(&mut watcher.watch, line.as_bytes());
            looking
        }
        Err(BuildFault::StockShort { name, asked, had }) => {
            watcher.caches.let_go();
            let short = Looking::StockShort { name, asked, had };
            note_look(alloc, &mut watcher.watch, short)
        }
        Err(BuildFault::NoMemory) => {
            watcher.caches.let_go();
            Looking::NoMemory
        }
    }
}

// The plans by which the next generation serves: each block with a cache goes on with that of one
// of the generation before which reads the same, or begins with a new one. Where memory is wanting,
// no cache is held besides those that were.
fn name_next<B: Rulebook>(
    naming: &Naming<'_>,
    plans: Plans<B>,
    caches: &mut Caches,
) -> Result<Arc<Plans<B>>, NoMemory>
    requires last { Precedes naming.now.before (caches_data caches.old) }
    requires absent { AbsentFrom naming.now.serial 0 (caches_data caches.old) }
    requires apart { AreApart (caches_data caches.old) }
    requires out { Each (IsOut 0) (caches_data caches.old) }
    ensures are { IfOk result (λ next. ArePlans B.taken B.said (arc_value next)) }
    ensures names { IfOk result (λ next. NamesNext naming.now plans (arc_value next)
        (caches_data caches.old) (caches_data caches.new)) }
    ensures fails { OnErr result (caches_data caches.new ≡ caches_data caches.old) }
{
    match name_and_share(naming, plans, caches) {
        Ok(next) => Ok(next),
        Err(NoMemory) => {
            caches.let_go();
            Err(NoMemory)
        }
    }
}

// The same, where new caches may be left of which no use is out.
fn name_and_share<B: Rulebook>(
    naming: &Naming<'_>,
    plans: Plans<B>,
    caches: &mut Caches,
) -> Result<Arc<Plans<B>>, NoMemory>
    requires last { Precedes naming.now.before (caches_data caches.old) }
    requires absent { AbsentFrom naming.now.serial 0 (caches_data caches.old) }
    requires apart { AreApart (caches_data caches.old) }
    ensures are { IfOk result (λ next. ArePlans B.taken B.said (arc_value next)) }
    ensures names { IfOk result (λ next. NamesNext naming.now plans (arc_value next)
        (caches_data caches.old) (caches_data caches.new)) }
    ensures adds { AddsCaches naming.now.serial 0 (caches_data caches.old)
        (caches_data caches.new) }
{
    let plans = name_caches(naming, plans, caches)?;
    plans.tell();
    Ok(Arc::new(naming.alloc, plans)?)
}

/// Shows a watch that the generation of this serial was published: it is the publisher's last one.
pub fn show_published<W: Watch, B: Rulebook, E: Extra>(
    watch: &mut W,
    publisher: &Publisher<Chain<B, E>>,
    serial: u64,
)
    requires last { count_of (plan_of publisher.now) ≡ serial + 1 }
    ensures told { AddsWatch (W.state watch.old) (W.state watch.new) (mark.Published serial ∷ []) }
    ensures stays { WatchStays (W.state watch.old) (W.state watch.new) }
{
    watch.saw_published(serial);
}

// Sweeps the slots of replaced generations, brings the extras of the chains that came home into the
// stock and their uses to the caches, and gives a free slot.
fn free_slot<B: Rulebook, E: Extra>(
    table: &PinTable<Chain<B, E>>,
    publisher: &mut Publisher<Chain<B, E>>,
    home: &mut Vec<Chain<B, E>>,
    stock: &mut Stock<E>,
    caches: &mut Caches,
) -> FreeSlot
    requires own { IsPublisherOf table.now publisher.old }
    requires none { (home.old.items ≡ []) × (vec_len home.old ≡ 0) }
    requires placed { IsPlaced (plan_of publisher.old) }
    requires room { 3 * (plan_of publisher.old).workers ≤ vec_capacity home.old }
    requires stands { IsStanding chain_identity (plan_of publisher.old) }
    requires places { HasPlaces (vec_len stock.old.spare) (vec_capacity stock.old.spare)
        (plan_of publisher.old) }
    requires caches { KeepsCaches chain_identity chain_lents (plan_of publisher.old)
        (caches_data caches.old) }
    requires accounted { AreAccounted (plan_of publisher.old) }
    requires obey { Obey B.taken B.said E.title E.takes E.ruling stock.old.spare.items }
    ensures own { SamePublisher publisher.old publisher.new }
    ensures keeps { KeepsPast (plan_of publisher.old) (plan_of publisher.new) }
    ensures placed { IsPlaced (plan_of publisher.new) }
    ensures freed { Frees (plan_of publisher.old) result (plan_of publisher.new) }
    ensures sweeps { KeepsSweeps (plan_of publisher.old).sweeps (plan_of publisher.new).sweeps }
    ensures found { IsFound result (plan_of publisher.new) }
    ensures none { (home.new.items ≡ []) × (vec_len home.new ≡ 0) }
    ensures room { vec_capacity home.new ≡ vec_capacity home.old }
    ensures judges { stock.new.judges ≡ stock.old.judges }
    ensures obey { Obey B.taken B.said E.title E.takes E.ruling stock.new.spare.items }
    ensures stands { IsStanding chain_identity (plan_of publisher.new) }
    ensures places { HasPlaces (vec_len stock.new.spare) (vec_capacity stock.new.spare)
        (plan_of publisher.new) }
    ensures caches { KeepsCaches chain_identity chain_lents (plan_of publisher.new)
        (caches_data caches.new) }
    ensures accounted { AreAccounted (plan_of publisher.new) }
    ensures weighs { (w : List ℕ → ℕ) → names_weigh E.title w stock.new.spare.items
        + out_weighs w (plan_of publisher.new)
        ≡ names_weigh E.title w stock.old.spare.items + out_weighs w (plan_of publisher.old) }
{
    let found = table.free_slot(publisher, home);
    take_back(home, stock, caches);
    found
}

// Publishes chains in a free slot, where serials are left.
fn publish<B: Rulebook, E: Extra>(
    table: &PinTable<Chain<B, E>>,
    publisher: &mut Publisher<Chain<B, E>>,
    slot: u32,
    chains: Vec<Chain<B, E>>,
)
    requires own { IsPublisherOf table.now publisher.old }
    requires few { count_of (plan_of publisher.old) < MOST_SERIALS }
    requires free { IsFreeSlot (plan_of publisher.old) slot }
    requires chains { length chains.items ≡ (plan_of publisher.old).workers }
    requires tagged { let serial = count_of (plan_of publisher.old) in
        AreNew chain_identity chain_log serial 0 chains.items }
    requires filled { AreFilled chain_identity chain_log 0 (plan_of publisher.old).past.filled }
    requires placed { IsPlaced (plan_of publisher.old) }
    requires stands { IsStanding chain_identity (plan_of publisher.old) }
    requires accounted { AreAccounted (plan_of publisher.old) }
    ensures own { SamePublisher publisher.old publisher.new }
    ensures filled { AreFilled chain_identity chain_log 0 (plan_of publisher.new).past.filled }
    ensures placed { IsPlaced (plan_of publisher.new) }
    ensures published { AddsGeneration (plan_of publisher.old) chains.items
        (plan_of publisher.new) }
    ensures stands { IsStanding chain_identity (plan_of publisher.new) }
    ensures accounted { AreAccounted (plan_of publisher.new) }
    ensures seats { seats_out (plan_of publisher.new)
        ≡ seats_out (plan_of publisher.old) + seats_of_chains chain_extras chains.items }
    ensures weighs { (w : List ℕ → ℕ) → out_weighs w (plan_of publisher.new)
        ≡ out_weighs w (plan_of publisher.old) + in_chains chain_extras w chains.items }
{
    match table.publish(publisher, slot, chains) {
        Published::Ok(_) => {}
        Published::SerialsSpent(_) => unreachable!(),
    }
}
