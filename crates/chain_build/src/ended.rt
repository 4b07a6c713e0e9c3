use dns_write::Tail;
use plugin_api::{Cause, Code};

/// How a chain ended. The answer of a reply stands in the slot; behind that of a lent one stand the
/// records of the tail, and not the slot's.
#[derive(Clone, Copy, Debug)]
pub enum Ended<'a> {
    Reply,
    Lent(&'a Tail),
    Code(Code, Cause),
    Drop,
}
