use crate::status::Status;
use extra_stock::Stock;
use load_maker::Load;
use outside::Host;
use outside_mem::{MemSide, MemWatch};
use run_meaning::WorkEnd;

/// A side whose worker has ended.
#[derive(Drop)]
pub struct Done<S> {
    pub side: S,
    pub end: WorkEnd,
    /// How many datagrams it took, each under a pin of its own.
    pub pins: u64,
    /// The last serial that its worker has seen.
    pub seen: u64,
    /// In how many turns it met want of memory.
    pub starved: u64,
}

/// What a run leaves, by the types of its sides, of its watch and of its extras.
#[derive(Drop)]
pub(crate) struct Ran<S, W, E> {
    pub status: Status,
    pub sides: Vec<Done<S>>,
    pub watch: Option<W>,
    pub published: u64,
    pub stock: Stock<E>,
    pub starved: u64,
}

/// What a run leaves: its sides, in the order in which they were opened, and its watch where that
/// was opened.
#[derive(Drop)]
pub struct Report<H: Host, E> {
    pub status: Status,
    pub sides: Vec<Done<H::Side>>,
    pub watch: Option<H::Watch>,
    /// How many generations were published.
    pub published: u64,
    /// The extras that were handed in: a judge of each name, and all others.
    pub stock: Stock<E>,
    /// In how many looks for a changed configuration it met want of memory.
    pub starved: u64,
    /// The run of a load that published its first configuration. Any other command has none.
    pub load: Option<LoadRun>,
}

/// The run of a load: its UDP side and its TCP side, its watch, and how many generations were
/// published.
#[derive(Drop)]
pub struct LoadRun {
    pub load: Load,
    pub sides: Vec<Done<MemSide>>,
    pub watch: MemWatch,
    pub published: u64,
}
