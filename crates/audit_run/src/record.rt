use crate::Orders;
use corefile_words::Pairs;
use dns_data::{Seq, Texts, Transport};
use outside::{Mark, WatchMark};
use run_meaning::WorkEnd;

pub type Marks = Seq<Mark>;

pub type WatchMarks = Seq<WatchMark>;

/// What is kept of a side: its port and transport, how its worker ended, and its journal.
#[derive(Debug, Drop)]
pub struct SideRecord {
    pub port: u16,
    pub by: Transport,
    pub end: WorkEnd,
    pub marks: Marks,
}

pub type SideRecords = Seq<SideRecord>;

/// What is kept of a run: the command's words and environment, the names of the program's extras,
/// the journals of its watch and its sides, and an order of the calls of each part that they share.
#[derive(Debug, Drop)]
pub struct RunRecord {
    pub words: Texts,
    pub env: Pairs,
    pub extras: Texts,
    pub watch: WatchMarks,
    pub sides: SideRecords,
    pub orders: Orders,
}

/// Why a record is not judged, or where it isn't true. The tests come in this order.
#[derive(Clone, Copy, Debug, PartialEq, Eq)]
pub enum AuditFault {
    /// The words are no command that serves, or the sides are too many for it.
    Words,
    /// The first mark of the watch's journal that may not stand there, or the journal's length.
    Watch { mark: u32 },
    /// A directive of an extra, in a bundle that was read: its line, and the bundle's serial.
    HasExtra { serial: u64, line: u32 },
    /// A read of a bundle with a pattern at this line that the maker of patterns refuses.
    Pattern { mark: u32, line: u32 },
    /// The first mark of a side's journal that may not stand there, or the journal's length.
    Turn { side: u32, mark: u32 },
    /// The first place of an order with a fault, or the order's length where a mark is missing; or
    /// the number of orders, where a part with marks has none.
    Order { order: u32, at: u32 },
    NoMemory,
}
