ghost use Rattle.std.specs.Prelude.{◌≡◌, IfOk};
ghost use Rattle.corefile_blocks.specs.{IsReadable};
ghost use Rattle.plain_chain.specs.Reading.{plain_behind};
ghost use Rattle.plain_chain.specs.Serving.{AreLeft, IsTail, PlainServes};

use crate::fault::PlainFault;
use crate::reading::plain_read;
use crate::turning::{PlainTurn, plain_turn};
use chain_build::CheckFault;
use corefile_blocks::Bundle;
use dns_data::{Buffer, NoMemory};
use outside::{Datagram, Mark, PatternMaker};
use std::alloc::Global;

/// What a datagram means by a list of marks.
#[derive(Debug, Drop)]
pub struct Plain {
    /// The reply's bytes, where there is one.
    pub reply: Option<Buffer>,
    /// How many of the marks are taken.
    pub used: u32,
}

/// What a datagram means under a bundle by a list of marks. All texts are read anew, and the maker
/// makes their patterns.
pub fn plain_serve<M: PatternMaker>(
    alloc: Global,
    bundle: &Bundle,
    default_port: u16,
    datagram: &Datagram,
    marks: &[Mark],
    maker: &mut M,
) -> Result<Plain, PlainFault>
    requires { IsReadable bundle.now }
    ensures serves { PlainServes bundle.now default_port datagram.now marks.now
        (M.last maker.new) result }
    ensures maker { M.state maker.new ≡ plain_behind result (M.state maker.old) }
{
    let read = match plain_read(alloc, bundle, default_port, maker) {
        Ok(read) => read,
        Err(CheckFault::Refused(why)) => return Err(PlainFault::Refused(why)),
        Err(CheckFault::NoMemory) => return Err(PlainFault::NoMemory),
    };
    match plain_turn(alloc, &read, datagram, marks)? {
        PlainTurn::Done(reply, left) => {
            let used = used_of(marks, left)?;
            Ok(Plain { reply, used })
        }
        PlainTurn::HasExtra => Err(PlainFault::HasExtra),
        PlainTurn::More => Err(PlainFault::Short),
        PlainTurn::Off(_) => Err(PlainFault::Short),
    }
}

// How many marks stand in front of those that are left. So many that 32 bits don't count them have
// no room.
fn used_of(marks: &[Mark], left: &[Mark]) -> Result<u32, NoMemory>
    requires { IsTail left.now marks.now }
    ensures { IfOk result (λ used. AreLeft used left.now marks.now) }
{
    let used = marks.len() - left.len();
    if u32::MAX as usize <= used {
        return Err(NoMemory);
    }
    Ok(used as u32)
}
