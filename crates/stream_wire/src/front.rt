ghost use Rattle.stream_wire.specs.Fronts.{BeginsWith};

use crate::reading::length_of;

/// What bytes begin with: a message that is whole, without its length; nothing, where there are
/// none; or a part of a frame, with `want` and `got` as a torn frame has them.
#[derive(Clone, Copy, Debug)]
pub enum Front<'a> {
    Whole(&'a [u8]),
    Nothing,
    Part { want: u32, got: u32 },
}

/// The first message of bytes that came, however they came. Its frame has two bytes more.
pub fn first_message(bytes: &[u8]) -> Front<'_>
    ensures { BeginsWith bytes.now result }
{
    let Some((high, behind)) = bytes.split_first() else {
        return Front::Nothing;
    };
    let Some((low, rest)) = behind.split_first() else {
        return Front::Part { want: 2, got: 1 };
    };
    let want = length_of(*high, *low);
    let size = usize::from(want);
    if rest.len() < size {
        let (want, got) = (u32::from(want), rest.len() as u32);
        return Front::Part { want, got };
    }
    let (message, _) = rest.split_at(size);
    Front::Whole(message)
}
