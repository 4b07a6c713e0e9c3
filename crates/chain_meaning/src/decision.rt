ghost use Rattle.std.specs.Prelude.{◌≡◌};
ghost use Rattle.chain_meaning.specs.Mean.{number, outcome_of};

use dns_data::{Answer, rcode};
use plain_plugins::LogOutcome;
use plugin_api::{Cause, Code};

/// What a chain decides for a query.
#[derive(Debug, Drop)]
pub enum Decision {
    Reply(Answer),
    /// A reply with this RCODE and no records.
    Code(Code, Cause),
    /// No reply.
    Drop,
}

/// The RCODE of a code (RFC 1035, section 4.1.1).
pub fn number(code: Code) -> u8
    ensures { result ≡ number code }
{
    match code {
        Code::FormErr => rcode::FORMERR,
        Code::ServFail => rcode::SERVFAIL,
        Code::NotImp => rcode::NOTIMP,
        Code::Refused => rcode::REFUSED,
    }
}

/// How a query ended, as `log` notes it.
pub fn outcome_of(decision: &Decision) -> LogOutcome
    ensures { result ≡ outcome_of decision.now }
{
    match decision {
        Decision::Reply(answer) => LogOutcome::Rcode(answer.rcode),
        Decision::Code(code, _) => LogOutcome::Rcode(number(*code)),
        Decision::Drop => LogOutcome::Dropped,
    }
}
