use dns_data::{Buffer, RecordRoom, Text};
use pattern::Scratch;
use std::alloc::Global;

/// What a worker keeps for the rules: searches, texts and sections are made in it.
#[derive(Drop)]
pub struct RewriteRoom {
    /// The text of a name that rules look at.
    pub(crate) text: Text,
    pub(crate) turning: Turning,
    /// A section of an answer.
    pub(crate) spare: RecordRoom,
}

/// What a text is searched and turned in.
#[derive(Drop)]
pub(crate) struct Turning {
    pub(crate) scratch: Scratch,
    /// The text that a name becomes.
    pub(crate) out: Buffer,
}

impl RewriteRoom {
    pub fn new(alloc: Global) -> RewriteRoom {
        RewriteRoom {
            text: Text::new(alloc),
            turning: Turning {
                scratch: Scratch::new(alloc),
                out: Buffer::new(alloc),
            },
            spare: RecordRoom::new(alloc),
        }
    }
}
