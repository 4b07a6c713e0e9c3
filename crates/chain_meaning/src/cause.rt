ghost use Rattle.std.specs.Prelude.{◌≡◌, ◌↔◌, List, IsTrue};
ghost use Rattle.dns_data.specs.declared.block.Block.{Block};
ghost use Rattle.dns_data.specs.declared.query.Query.{Query};
ghost use Rattle.dns_wire.specs.declared.asked.Asked.{Asked};
ghost use Rattle.outside.specs.Meanings.{Done};
ghost use Rattle.outside.specs.declared.datagram.Datagram.{Datagram};
ghost use Rattle.outside.specs.declared.mark.Mark.{Mark};
ghost use Rattle.chain_meaning.specs.Causes.{AskedCause, HasCause, IsServFail};
ghost use Rattle.chain_meaning.specs.Mean.{mean};
ghost use Rattle.chain_meaning.specs.Serving.{asked_decides};
ghost use Rattle.chain_meaning.specs.Steps.{Step};

use crate::decision::{Decision, number};
use dns_data::rcode;

/// Whether a decision is SERVFAIL. It is exactly where the chain that decided so for a query has a
/// cause for it by the marks that it took, and likewise for what a datagram asks.
pub fn is_servfail(decision: &Decision) -> bool
    ensures chain { (steps : List Step) → (q : Query) → (marks left : List Mark)
        → mean steps q marks ≡ Done decision.now left
        → IsTrue result ↔ HasCause steps q marks decision.now }
    ensures asked { (steps : Block → List Step) → (blocks : List Block) → (d : Datagram)
        → (asked : Asked) → (marks left : List Mark)
        → asked_decides steps blocks d asked marks ≡ Done decision.now left
        → IsTrue result ↔ AskedCause steps blocks d asked marks decision.now }
{
    has_servfail(decision)
}

// Whether its RCODE is that.
fn has_servfail(decision: &Decision) -> bool
    ensures { IsTrue result ↔ IsServFail decision.now }
{
    match decision {
        Decision::Reply(answer) => answer.rcode == rcode::SERVFAIL,
        Decision::Code(code, _) => number(*code) == rcode::SERVFAIL,
        Decision::Drop => false,
    }
}
