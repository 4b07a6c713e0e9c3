/// The number of a name, and the hash of its wire format, so that most other names whose hashes
/// fall together with it are passed over unread.
#[derive(Clone, Copy, Debug)]
pub struct Entry {
    pub hash: u32,
    pub number: usize,
}
