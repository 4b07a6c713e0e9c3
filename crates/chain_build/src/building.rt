//! The chains of a generation, one for each worker.
ghost use Rattle.std.specs.Prelude.{◌≡◌, ◌≤◌, ◌<◌, ◌+◌, ◌-◌, ◌*◌, ◌^◌, ◌++◌, ℕ, List, []};
ghost use Rattle.std.specs.Prelude.{IfOk, OnOk, OnErr};
ghost use Rattle.std.specs.Prelude.{length, map, vec_len, vec_capacity};
ghost use Rattle.std.specs.Arc.{arc_value};
ghost use Rattle.std.specs.Box.{box_value};
ghost use Rattle.std.specs.List.{All};
ghost use Rattle.extra_stock.specs.{asked_by, in_chains, is_named, names_weigh, seats_in};
ghost use Rattle.extra_stock.specs.{seats_of_chains};
ghost use Rattle.pin_table.specs.{AreNew};
ghost use Rattle.plugin_api.specs.{Obey};
ghost use Rattle.chain_build.specs.Building.{Builds, BuildsChains};
ghost use Rattle.chain_build.specs.Lending.{AreHeldBy, IsNamed, chain_names};
ghost use Rattle.chain_build.specs.Places.{AreTaken};
ghost use Rattle.chain_build.specs.Shares.{AreUncalled, HaveMore, HaveParts};
ghost use Rattle.chain_build.specs.Uses.{ArePooled, chain_named};
ghost use Rattle.chain_build.specs.Workers.{chain_extras, chain_identity, chain_lents, chain_log};
ghost use Rattle.chain_build.specs.Workers.{chains_lents, plans_of};
ghost use Rattle.lent_caches.specs.Building.{AreNewUses, CanLendEach, CanLendTimes, lent_times};
ghost use Rattle.lent_caches.specs.Held.{AreApart, AreWhole, caches_data, given_all, stays};
ghost use Rattle.lent_caches.specs.Ledger.{AllHeld, lent_each};

use crate::chain::Chain;
use crate::held::Held;
use crate::lending::{give_uses, lend_uses, share_pools};
use crate::plans::Plans;
use dns_data::{NoMemory, Text};
use extra_stock::{Stock, find_short, give_blocks, seat_blocks};
use forward_plugin::Pools;
use lent_caches::Caches;
use outside::Mark;
use pin_table::Tagged;
use plugin_api::{Extra, Rulebook};
use std::alloc::Global;
use std::sync::Arc;

impl<B: Rulebook, E: Extra> Tagged for Chain<B, E> {
    type Note = Mark;

    type Kind = Plans<B>;

    ghost use Rattle.chain_build.specs.Workers.{chain_identity, chain_log};

    ghost identity = { chain_identity };

    ghost log = { chain_log };
}

/// Why no chains are built.
#[derive(Debug, Drop)]
pub enum BuildFault {
    /// More extras of a name are asked for than the stock has.
    StockShort { name: Text, asked: u64, had: u64 },
    NoMemory,
}

impl From<NoMemory> for BuildFault {
    ghost use Rattle.std.specs.Prelude.{◌≡◌};
    ghost use Rattle.chain_build.specs.declared.building.BuildFault.TheVariants as variants;

    ghost from_gives = { λ _ fault. fault ≡ variants.NoMemory };

    fn from(_: NoMemory) -> BuildFault {
        BuildFault::NoMemory
    }
}

/// A chain for each of so many workers, of this serial, with extras out of the stock and uses of
/// the caches that serve its blocks. After a fault the stock has the same extras, and each cache
/// lent what it had lent before.
pub fn build<B: Rulebook, E: Extra>(
    alloc: Global,
    plans: &Arc<Plans<B>>,
    serial: u64,
    workers: u64,
    stock: &mut Stock<E>,
    caches: &mut Caches,
) -> Result<Vec<Chain<B, E>>, BuildFault>
    requires workers { workers < 2 ^ 32 }
    requires named { All IsNamed (arc_value plans.now).chains }
    requires held { AreHeldBy (map chain_named (arc_value plans.now).chains)
        (caches_data caches.old) }
    requires can { CanLendTimes workers (chain_names (arc_value plans.now).chains)
        (caches_data caches.old) }
    requires apart { AreApart (caches_data caches.old) }
    requires obey { Obey B.taken B.said E.title E.takes E.ruling stock.old.spare.items }
    ensures short { Builds workers (arc_value plans.now).extras
        (λ n. names_weigh E.title (is_named n) stock.old.spare.items) result }
    ensures made { IfOk result (λ chains. BuildsChains (arc_value plans.now) serial workers
        chains.items) }
    ensures lent { IfOk result (λ chains. caches_data caches.new
        ≡ lent_times workers (chain_names (arc_value plans.now).chains)
        (caches_data caches.old)) }
    ensures fails { OnErr result (caches_data caches.new ≡ caches_data caches.old) }
    ensures judges { stock.new.judges ≡ stock.old.judges }
    ensures obey { Obey B.taken B.said E.title E.takes E.ruling stock.new.spare.items }
    ensures ok { (w : List ℕ → ℕ) → OnOk result (names_weigh E.title w stock.new.spare.items
        + workers * asked_by w (arc_value plans.now).extras
        ≡ names_weigh E.title w stock.old.spare.items) }
    ensures err { (w : List ℕ → ℕ) → OnErr result (names_weigh E.title w stock.new.spare.items
        ≡ names_weigh E.title w stock.old.spare.items) }
    ensures ok_len { OnOk result (vec_len stock.new.spare
        + workers * seats_in (arc_value plans.now).extras ≡ vec_len stock.old.spare) }
    ensures err_len { OnErr result (vec_len stock.new.spare ≡ vec_len stock.old.spare) }
    ensures capacity { vec_capacity stock.new.spare ≡ vec_capacity stock.old.spare }
{
    plans.tell();
    let short = find_short(
        alloc,
        workers,
        plans.extras.as_slice(),
        stock.spare.as_slice(),
    )?;
    if let Some(short) = short {
        return Err(BuildFault::StockShort {
            name: short.name,
            asked: short.asked,
            had: short.had,
        });
    }
    Ok(build_chains(alloc, plans, serial, workers, stock, caches)?)
}

// The same where the stock has enough.
fn build_chains<B: Rulebook, E: Extra>(
    alloc: Global,
    plans: &Arc<Plans<B>>,
    serial: u64,
    workers: u64,
    stock: &mut Stock<E>,
    caches: &mut Caches,
) -> Result<Vec<Chain<B, E>>, NoMemory>
    requires workers { workers < 2 ^ 32 }
    requires named { All IsNamed (arc_value plans.now).chains }
    requires held { AreHeldBy (map chain_named (arc_value plans.now).chains)
        (caches_data caches.old) }
    requires can { CanLendTimes workers (chain_names (arc_value plans.now).chains)
        (caches_data caches.old) }
    requires apart { AreApart (caches_data caches.old) }
    requires obey { Obey B.taken B.said E.title E.takes E.ruling stock.old.spare.items }
    requires taken { All (AreTaken B.taken) (arc_value plans.now).extras }
    requires enough { (n : List ℕ) → workers * asked_by (is_named n) (arc_value plans.now).extras
        ≤ names_weigh E.title (is_named n) stock.old.spare.items }
    ensures made { IfOk result (λ chains. BuildsChains (arc_value plans.now) serial workers
        chains.items) }
    ensures lent { IfOk result (λ chains. caches_data caches.new
        ≡ lent_times workers (chain_names (arc_value plans.now).chains)
        (caches_data caches.old)) }
    ensures fails { OnErr result (caches_data caches.new ≡ caches_data caches.old) }
    ensures judges { stock.new.judges ≡ stock.old.judges }
    ensures obey { Obey B.taken B.said E.title E.takes E.ruling stock.new.spare.items }
    ensures ok { (w : List ℕ → ℕ) → OnOk result (names_weigh E.title w stock.new.spare.items
        + workers * asked_by w (arc_value plans.now).extras
        ≡ names_weigh E.title w stock.old.spare.items) }
    ensures err { (w : List ℕ → ℕ) → OnErr result (names_weigh E.title w stock.new.spare.items
        ≡ names_weigh E.title w stock.old.spare.items) }
    ensures ok_len { OnOk result (vec_len stock.new.spare
        + workers * seats_in (arc_value plans.now).extras ≡ vec_len stock.old.spare) }
    ensures err_len { OnErr result (vec_len stock.new.spare ≡ vec_len stock.old.spare) }
    ensures capacity { vec_capacity stock.new.spare ≡ vec_capacity stock.old.spare }
{
    let mut chains = Vec::with_capacity(alloc, workers as usize)?;
    let mut shared = share_pools(alloc, plans.chains.as_slice(), workers + 1)?;
    for worker in 0..workers {
        let of = ChainOf {
            plans,
            serial,
            worker,
        };
        match one_chain(alloc, &of, shared.as_mut_slice(), stock, caches) {
            Ok(chain) => chains.push_reserved(chain),
            Err(NoMemory) => {
                give_chains(&mut chains, stock, caches);
                return Err(NoMemory);
            }
        }
    }
    Ok(chains)
}

// Which chain is to be made.
#[derive(Drop)]
struct ChainOf<'a, B: Rulebook> {
    plans: &'a Arc<Plans<B>>,
    serial: u64,
    worker: u64,
}

// One worker's chain.
fn one_chain<B: Rulebook, E: Extra>(
    alloc: Global,
    of: &ChainOf<'_, B>,
    shared: &mut [Pools],
    stock: &mut Stock<E>,
    caches: &mut Caches,
) -> Result<Chain<B, E>, NoMemory>
    requires pooled { ArePooled (arc_value of.now.plans.now).chains shared.old }
    requires more { All HaveMore shared.old }
    requires named { All IsNamed (arc_value of.now.plans.now).chains }
    requires held { AreHeldBy (map chain_named (arc_value of.now.plans.now).chains)
        (caches_data caches.old) }
    requires can { CanLendEach (chain_names (arc_value of.now.plans.now).chains)
        (caches_data caches.old) }
    requires apart { AreApart (caches_data caches.old) }
    requires obey { Obey B.taken B.said E.title E.takes E.ruling stock.old.spare.items }
    requires taken { All (AreTaken B.taken) (arc_value of.now.plans.now).extras }
    requires enough { (n : List ℕ) → asked_by (is_named n) (arc_value of.now.plans.now).extras
        ≤ names_weigh E.title (is_named n) stock.old.spare.items }
    ensures plans { IfOk result (λ chain. plans_of chain ≡ arc_value of.now.plans.now) }
    ensures serial { IfOk result (λ chain. (box_value chain.held).serial ≡ of.now.serial) }
    ensures worker { IfOk result (λ chain. (box_value chain.held).worker ≡ of.now.worker) }
    ensures fresh { IfOk result (λ chain. All AreUncalled (box_value chain.held).uses.items) }
    ensures lent { IfOk result (λ chain. caches_data caches.new
        ≡ lent_each (chain_names (arc_value of.now.plans.now).chains) (caches_data caches.old)) }
    ensures new { IfOk result (λ chain. AreNewUses
        (chain_names (arc_value of.now.plans.now).chains) (caches_data caches.old)
        (chain_lents chain)) }
    ensures fails { OnErr result (caches_data caches.new ≡ caches_data caches.old) }
    ensures pooled { map length shared.new ≡ map length shared.old }
    ensures parts { (parts : ℕ) → All (HaveParts parts) shared.old
        → OnOk result (All (HaveParts (parts - 1)) shared.new) }
    ensures judges { stock.new.judges ≡ stock.old.judges }
    ensures obey { Obey B.taken B.said E.title E.takes E.ruling stock.new.spare.items }
    ensures ok { (w : List ℕ → ℕ) → OnOk result (names_weigh E.title w stock.new.spare.items
        + asked_by w (arc_value of.now.plans.now).extras
        ≡ names_weigh E.title w stock.old.spare.items) }
    ensures err { (w : List ℕ → ℕ) → OnErr result (names_weigh E.title w stock.new.spare.items
        ≡ names_weigh E.title w stock.old.spare.items) }
    ensures ok_len { OnOk result (vec_len stock.new.spare
        + seats_in (arc_value of.now.plans.now).extras ≡ vec_len stock.old.spare) }
    ensures err_len { OnErr result (vec_len stock.new.spare ≡ vec_len stock.old.spare) }
    ensures capacity { vec_capacity stock.new.spare ≡ vec_capacity stock.old.spare }
{
    let plans = Arc::try_clone(of.plans)?;
    let mut held = Box::new(
        alloc,
        Held {
            serial: of.serial,
            worker: of.worker,
            seats: Vec::new(alloc),
            uses: Vec::new(alloc),
        },
    )?;
    let uses = lend_uses(alloc, plans.chains.as_slice(), shared, caches)?;
    match seat_blocks(alloc, plans.extras.as_slice(), &mut stock.spare) {
        Ok(seats) => {
            held.seats = seats;
            held.uses = uses;
            Ok(Chain { plans, held })
        }
        Err(NoMemory) => {
            give_uses(uses, caches);
            Err(NoMemory)
        }
    }
}

/// Brings the extras of chains home, and their uses of caches; a cache of which no use is out goes,
/// and tells its whole history. It takes no memory: the places of the extras in the stock stayed
/// free.
pub fn take_back<B: Rulebook, E: Extra>(
    chains: &mut Vec<Chain<B, E>>,
    stock: &mut Stock<E>,
    caches: &mut Caches,
)
    requires obey { Obey B.taken B.said E.title E.takes E.ruling stock.old.spare.items }
    requires room { vec_len stock.old.spare + seats_of_chains chain_extras chains.old.items
        ≤ vec_capacity stock.old.spare }
    requires held { AllHeld (chains_lents chains.old.items) (caches_data caches.old) }
    requires apart { AreApart (caches_data caches.old) }
    ensures stays { caches_data caches.new
        ≡ stays (given_all (chains_lents chains.old.items) (caches_data caches.old)) }
    ensures whole { AreWhole
        (given_all (chains_lents chains.old.items) (caches_data caches.old)) }
    ensures empty { (chains.new.items ≡ []) × (vec_len chains.new ≡ 0) }
    ensures kept { vec_capacity chains.new ≡ vec_capacity chains.old }
    ensures judges { stock.new.judges ≡ stock.old.judges }
    ensures obey { Obey B.taken B.said E.title E.takes E.ruling stock.new.spare.items }
    ensures weighs { (w : List ℕ → ℕ) → names_weigh E.title w stock.new.spare.items
        ≡ names_weigh E.title w stock.old.spare.items + in_chains chain_extras w chains.old.items }
    ensures len { vec_len stock.new.spare
        ≡ vec_len stock.old.spare + seats_of_chains chain_extras chains.old.items }
    ensures capacity { vec_capacity stock.new.spare ≡ vec_capacity stock.old.spare }
{
    give_chains(chains, stock, caches);
    caches.let_go();
}

// The same, and no cache goes.
fn give_chains<B: Rulebook, E: Extra>(
    chains: &mut Vec<Chain<B, E>>,
    stock: &mut Stock<E>,
    caches: &mut Caches,
)
    requires obey { Obey B.taken B.said E.title E.takes E.ruling stock.old.spare.items }
    requires room { vec_len stock.old.spare + seats_of_chains chain_extras chains.old.items
        ≤ vec_capacity stock.old.spare }
    requires held { AllHeld (chains_lents chains.old.items) (caches_data caches.old) }
    requires apart { AreApart (caches_data caches.old) }
    ensures given { caches_data caches.new
        ≡ given_all (chains_lents chains.old.items) (caches_data caches.old) }
    ensures empty { (chains.new.items ≡ []) × (vec_len chains.new ≡ 0) }
    ensures kept { vec_capacity chains.new ≡ vec_capacity chains.old }
    ensures judges { stock.new.judges ≡ stock.old.judges }
    ensures obey { Obey B.taken B.said E.title E.takes E.ruling stock.new.spare.items }
    ensures weighs { (w : List ℕ → ℕ) → names_weigh E.title w stock.new.spare.items
        ≡ names_weigh E.title w stock.old.spare.items + in_chains chain_extras w chains.old.items }
    ensures len { vec_len stock.new.spare
        ≡ vec_len stock.old.spare + seats_of_chains chain_extras chains.old.items }
    ensures capacity { vec_capacity stock.new.spare ≡ vec_capacity stock.old.spare }
{
    chains.reverse();
    while let Some(chain) = chains.pop() {
        let Chain { plans: _, held } = chain;
        let Held {
            serial: _,
            worker: _,
            mut seats,
            uses,
        } = Box::into_inner(held);
        give_blocks(&mut seats, &mut stock.spare);
        give_uses(uses, caches);
    }
}
