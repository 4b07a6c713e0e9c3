use dns_data::Seq;

/// What is known of a name without its records.
#[derive(Clone, Copy, Debug)]
pub struct Node {
    /// The number of the name above. The root's tells nothing.
    pub above: usize,
    pub labels: usize,
    /// The first label is `*`.
    pub is_wild: bool,
    /// The number of the wildcard below.
    pub star: Option<usize>,
}

/// The numbers of records, which are their places in the zone's list.
pub type Numbers = Seq<usize>;
