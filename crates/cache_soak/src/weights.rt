//! The heaviest entry that may stand in a cache, and one that is a byte too heavy.
use cache_rules::is_light;
use dns_data::{Answer, Bytes, NoMemory, Seq};
use outside::{InnerMark, Outcome};
use std::alloc::Global;

/// Whether an entry of this weight is light enough: 8 for a random word, and the bytes that an
/// upstream sent.
pub fn is_kept(alloc: Global, weight: usize) -> Result<bool, NoMemory> {
    let Some(many) = weight.checked_sub(8) else {
        return Err(NoMemory);
    };
    let sent = vec![in alloc; 7_u8; many]?;
    let mut inner = Seq::new(alloc);
    inner.push(InnerMark::Word(0))?;
    let bytes = Bytes::from_slice(alloc, sent.as_slice())?;
    inner.push(InnerMark::More(Outcome::Got(bytes)))?;
    let answer = Answer {
        rcode: 0,
        aa: false,
        ra: false,
        tc: false,
        answer: Seq::new(alloc),
        authority: Seq::new(alloc),
        additional: Seq::new(alloc),
    };
    Ok(is_light(&answer, inner.as_slice()))
}
