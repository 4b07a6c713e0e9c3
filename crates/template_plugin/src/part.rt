use dns_data::Bytes;

/// A piece of a text as it is filled in, with groups by their numbers.
#[derive(Debug, Drop)]
pub enum Part {
    Bytes(Bytes),
    Name,
    Zone,
    Type,
    Remote,
    Group(usize),
}
