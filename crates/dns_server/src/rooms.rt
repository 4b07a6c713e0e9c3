//! What a run needs memory for before it opens anything.
ghost use Rattle.std.specs.Prelude.{◌≡◌, ◌≤◌, ◌<◌, ◌+◌, ◌*◌, ℕ, List, [], length, map, IfOk, OnErr};
ghost use Rattle.std.specs.Arc.{arc_value};
ghost use Rattle.std.specs.List.{All};
ghost use Rattle.std.specs.Vec.{vec_capacity, vec_len};
ghost use Rattle.dns_data.specs.declared.limit.TheConstants as limits;
ghost use Rattle.extra_stock.specs.{in_chains, is_named, names_weigh, seats_of_chains};
ghost use Rattle.pin_table.specs.{AreNew};
ghost use Rattle.plugin_api.specs.{Obey};
ghost use Rattle.chain_build.specs.{ArePlans, Builds, chain_extras, chain_identity, chain_log};
ghost use Rattle.chain_build.specs.{plans_of};
ghost use Rattle.lent_caches.specs.Held.{caches_data};
ghost use Rattle.dns_server.specs.Caches.{BeginsCaches, LendsFirst};
ghost use Rattle.dns_server.specs.Opening.{place_of, sides_of, side_count};

use crate::report::Done;
use crate::roles::Role;
use crate::sides::{Place, places_of};
use chain_build::{BuildFault, Chain, Generation, Naming, Plans, build, name_caches};
use dns_data::NoMemory;
use extra_stock::Stock;
use lent_caches::Caches;
use plugin_api::{Extra, Rulebook};
use seeded_hash::Seed;
use std::alloc::Global;
use std::sync::Arc;

/// What the first bundle serves by, the places of its sides, a chain for each, and room: for the
/// sides, for their workers and the watcher, for what they leave, and for the chains of four
/// generations.
#[derive(Drop)]
pub(crate) struct Rooms<S, W, B: Rulebook, E: Extra> {
    pub plans: Arc<Plans<B>>,
    pub places: Vec<Place>,
    pub chains: Vec<Chain<B, E>>,
    pub sides: Vec<S>,
    pub roles: Vec<Role<S, W, B, E>>,
    pub dones: Vec<Done<S>>,
    pub home: Vec<Chain<B, E>>,
}

impl<S: Drop, W: Drop, B: Rulebook, E: Extra> Rooms<S, W, B, E> {
    /// So many workers an endpoint, whose caches hash with the seed. The chains are built last, so
    /// that want of memory leaves their extras in the stock.
    pub fn new(
        alloc: Global,
        plans: Plans<B>,
        workers: u64,
        stock: &mut Stock<E>,
        caches: &mut Caches,
        seed: Seed,
    ) -> Result<Rooms<S, W, B, E>, BuildFault>
        requires few { side_count workers plans.ports ≤ limits.WORKERS }
        requires workers { workers ≤ limits.WORKERS }
        requires none { caches_data caches.old ≡ [] }
        requires obey { Obey B.taken B.said E.title E.takes E.ruling stock.old.spare.items }
        ensures are { IfOk result (λ rooms. ArePlans B.taken B.said (arc_value rooms.plans)) }
        ensures places { IfOk result
            (λ rooms. map place_of rooms.places.items ≡ sides_of workers plans.ports) }
        ensures each { IfOk result
            (λ rooms. length rooms.chains.items ≡ length rooms.places.items) }
        ensures new { IfOk result
            (λ rooms. AreNew chain_identity chain_log 0 0 rooms.chains.items) }
        ensures chains { IfOk result
            (λ rooms. All (λ chain. plans_of chain ≡ arc_value rooms.plans) rooms.chains.items) }
        ensures lends { IfOk result (λ rooms. LendsFirst plans (arc_value rooms.plans)
            (length rooms.chains.items) (caches_data caches.new)) }
        ensures none { IfOk result (λ rooms. (rooms.sides.items ≡ []) × (rooms.roles.items ≡ [])
            × (rooms.dones.items ≡ []) × (rooms.home.items ≡ []) × (vec_len rooms.home ≡ 0)) }
        ensures room { IfOk result (λ rooms. let count = length rooms.places.items in
            (count ≤ vec_capacity rooms.sides) × (count + 1 ≤ vec_capacity rooms.roles)
            × (count ≤ vec_capacity rooms.dones) × (4 * count ≤ vec_capacity rooms.home)) }
        ensures stock { Builds (side_count workers plans.ports) plans.extras
            (λ n. names_weigh E.title (is_named n) stock.old.spare.items) result }
        ensures spares { IfOk result (λ rooms. vec_len stock.new.spare
            + seats_of_chains chain_extras rooms.chains.items ≤ vec_capacity stock.new.spare) }
        ensures weighs { (w : List ℕ → ℕ) → IfOk result
            (λ rooms. names_weigh E.title w stock.new.spare.items
            + in_chains chain_extras w rooms.chains.items
            ≡ names_weigh E.title w stock.old.spare.items) }
        ensures err { (w : List ℕ → ℕ) → OnErr result (names_weigh E.title w stock.new.spare.items
            ≡ names_weigh E.title w stock.old.spare.items) }
        ensures judges { stock.new.judges ≡ stock.old.judges }
        ensures obey { Obey B.taken B.said E.title E.takes E.ruling stock.new.spare.items }
    {
        let plans = name_first(alloc, plans, caches, seed)?;
        let mut rooms = Rooms::empty(alloc, plans, workers)?;
        let count = rooms.places.len() as u64;
        rooms.chains = build(alloc, &rooms.plans, 0, count, stock, caches)?;
        Ok(rooms)
    }

    // The same before there are any chains.
    fn empty(alloc: Global, plans: Plans<B>, workers: u64) -> Result<Rooms<S, W, B, E>, NoMemory>
        requires few { side_count workers plans.ports ≤ limits.WORKERS }
        requires workers { workers ≤ limits.WORKERS }
        ensures plans { IfOk result (λ rooms. arc_value rooms.plans ≡ plans) }
        ensures places { IfOk result
            (λ rooms. map place_of rooms.places.items ≡ sides_of workers plans.ports) }
        ensures none { IfOk result (λ rooms. (rooms.sides.items ≡ []) × (rooms.roles.items ≡ [])
            × (rooms.dones.items ≡ []) × (rooms.home.items ≡ []) × (vec_len rooms.home ≡ 0)) }
        ensures room { IfOk result (λ rooms. let count = length rooms.places.items in
            (count ≤ vec_capacity rooms.sides) × (count + 1 ≤ vec_capacity rooms.roles)
            × (count ≤ vec_capacity rooms.dones) × (4 * count ≤ vec_capacity rooms.home)) }
    {
        let places = places_of(alloc, plans.ports.as_slice(), workers)?;
        let count = places.len();
        Ok(Rooms {
            plans: Arc::new(alloc, plans)?,
            places,
            chains: Vec::new(alloc),
            sides: Vec::with_capacity(alloc, count)?,
            roles: Vec::with_capacity(alloc, count + 1)?,
            dones: Vec::with_capacity(alloc, count)?,
            home: Vec::with_capacity(alloc, 4 * count)?,
        })
    }
}

// The first plans, where each block that has a cache begins with one.
fn name_first<B: Rulebook>(
    alloc: Global,
    plans: Plans<B>,
    caches: &mut Caches,
    seed: Seed,
) -> Result<Plans<B>, NoMemory>
    requires none { caches_data caches.old ≡ [] }
    ensures are { IfOk result (ArePlans B.taken B.said) }
    ensures begins { IfOk result (λ first. BeginsCaches plans first (caches_data caches.new)) }
{
    let naming = Naming {
        alloc,
        serial: 0,
        before: Generation::none(),
        seed,
    };
    let first = name_caches(&naming, plans, caches)?;
    first.tell();
    Ok(first)
}
