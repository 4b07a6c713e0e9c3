ghost use Rattle.std.specs.Prelude.{IfOk};
ghost use Rattle.chain_meaning.specs.Mean.{error_noted, query_noted};
ghost use Rattle.chain_trail.specs.Trails.{Behind};

use chain_meaning::{Decision, outcome_of};
use dns_data::{NoMemory, Query};
use plain_marks::{Meant, take_note};
use plain_plugins::{PlainPlan, error_line, log_line};
use std::alloc::Global;

/// What `errors` takes behind what the rest meant: the line of a code.
pub(crate) fn behind_errors<'a>(
    alloc: Global,
    query: &Query,
    meant: Meant<'a, Decision>,
) -> Result<Meant<'a, Decision>, NoMemory>
    ensures { IfOk result (Behind meant.entry (error_noted query.now)) }
{
    match meant {
        Meant::Done(decision, left) => match decision {
            Decision::Code(code, cause) => {
                let line = error_line(alloc, query, code, cause)?;
                Ok(take_note(line.as_str().as_bytes(), Decision::Code(code, cause), left))
            }
            Decision::Reply(answer) => Ok(Meant::Done(Decision::Reply(answer), left)),
            Decision::Drop => Ok(Meant::Done(Decision::Drop, left)),
        },
        Meant::More => Ok(Meant::More),
        Meant::Off(left) => Ok(Meant::Off(left)),
    }
}

/// What `log` takes behind what the rest meant: the line of a query in its zones.
pub(crate) fn behind_log<'a>(
    alloc: Global,
    plan: &PlainPlan,
    query: &Query,
    meant: Meant<'a, Decision>,
) -> Result<Meant<'a, Decision>, NoMemory>
    ensures { IfOk result (Behind meant.entry (query_noted plan.now query.now)) }
{
    match meant {
        Meant::Done(decision, left) => {
            if !plan.covers(&query.name) {
                return Ok(Meant::Done(decision, left));
            }
            let line = log_line(alloc, query, outcome_of(&decision))?;
            Ok(take_note(line.as_str().as_bytes(), decision, left))
        }
        Meant::More => Ok(Meant::More),
        Meant::Off(left) => Ok(Meant::Off(left)),
    }
}
