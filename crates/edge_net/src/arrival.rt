/// What a look for the next message gave, beside its bytes and its client.
#[derive(Clone, Copy, Debug, PartialEq, Eq)]
pub enum Arrival {
    Got,
    /// No message came, as far as it waits: a second.
    Nothing,
    Failed,
    NoMemory,
}
