use dns_data::Bytes;

/// What is filled in for each query.
#[derive(Debug, Drop)]
pub enum Place {
    /// The name, in small letters.
    Name,
    /// The zone of the directive that holds the name.
    Zone,
    Type,
    Class,
    /// The client's address.
    Remote,
    /// What a group matched, by its name.
    Named(Bytes),
    /// What a group matched, by its number.
    Number(u64),
}

/// A piece of a text.
#[derive(Debug, Drop)]
pub enum Piece {
    Bytes(Bytes),
    Place(Place),
}
