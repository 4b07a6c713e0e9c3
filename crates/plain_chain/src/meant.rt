ghost use Rattle.dns_data.specs.declared.limit.TheConstants as limits;
ghost use Rattle.std.specs.Prelude.{◌≡◌, ◌<◌};
ghost use Rattle.outside.specs.Meanings.{Done};
ghost use Rattle.chain_meaning.specs.Mean.{nothing};
ghost use Rattle.chain_meaning.specs.declared.decision.Decision.TheVariants as decision;
ghost use Rattle.plain_marks.specs.{Means};

use chain_meaning::Decision;
use dns_data::{Answer, Records};
use outside::Mark;
use plain_marks::Meant;
use std::alloc::Global;

/// This RCODE without records, and no mark is taken.
pub(crate) fn bare<'a>(alloc: Global, rcode: u8, marks: &'a [Mark]) -> Meant<'a, Decision>
    requires { rcode < limits.CODE_END }
    ensures { Means (λ left. Done (decision.Reply (nothing rcode)) left) marks.now result }
{
    Meant::Done(bare_reply(alloc, rcode), marks)
}

/// A reply with this RCODE and no records.
pub fn bare_reply(alloc: Global, rcode: u8) -> Decision
    requires { rcode < limits.CODE_END }
    ensures { result ≡ decision.Reply (nothing rcode) }
{
    Decision::Reply(Answer {
        rcode,
        aa: false,
        ra: false,
        tc: false,
        answer: Records::new(alloc),
        authority: Records::new(alloc),
        additional: Records::new(alloc),
    })
}
