use dns_data::Seq;

/// A mark of a side's journal, by the number of the side and that of the mark.
#[derive(Clone, Copy, Debug, PartialEq, Eq)]
pub struct Place {
    pub side: u32,
    pub mark: u32,
}

pub type Places = Seq<Place>;

/// In which order a part that workers share had its calls: a shard of a cache, or a pool of
/// upstreams. Of a cache `serial` and `block` are those at which it began; a block's shards are its
/// parts 0 to 7, and its pools stand behind these.
#[derive(Debug, Drop)]
pub struct Order {
    pub serial: u64,
    pub block: u32,
    pub part: u32,
    pub marks: Places,
}

pub type Orders = Seq<Order>;
