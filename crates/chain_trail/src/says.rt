//! What is said of a step that a query reached.

ghost use Rattle.std.specs.Prelude.{◌≡◌, IfOk};
ghost use Rattle.chain_trail.specs.Says.{acl_say, cause_say, decision_say, query_say};
ghost use Rattle.chain_trail.specs.Says.{rewrite_say};

use chain_meaning::Decision;
use dns_data::{NoMemory, Query, Text, rcode};
use plugin_api::Cause;
use rewrite_plugin::Changed;
use std::alloc::Global;
use type_names::kind_text;

/// What is said of a plugin that decided so.
pub fn decision_say(decision: &Decision) -> &'static str
    ensures { result.now ≡ decision_say decision.now }
{
    match decision {
        Decision::Reply(_) => "reply",
        Decision::Code(_, cause) => cause_say(*cause),
        Decision::Drop => "drop",
    }
}

fn cause_say(cause: Cause) -> &'static str
    ensures { result.now ≡ cause_say cause }
{
    match cause {
        Cause::NoMatch => "no match",
        Cause::NotRecord => "not a record",
        Cause::UnknownHost => "unknown",
        Cause::AllUpstreams => "all failed",
        _ => "code",
    }
}

/// What is said of `acl` that decided so.
pub fn acl_say(decision: &Decision) -> &'static str
    ensures { result.now ≡ acl_say decision.now }
{
    match decision {
        Decision::Reply(answer) => {
            if answer.rcode == rcode::REFUSED {
                "block"
            } else {
                "filter"
            }
        }
        Decision::Code(_, cause) => cause_say(*cause),
        Decision::Drop => "drop",
    }
}

/// What is said of `rewrite`: `pass` where no rule was applied, else `rewritten TYPE NAME`, the
/// query behind the rules.
pub fn rewrite_say(alloc: Global, changed: &Changed) -> Result<Text, NoMemory>
    ensures { IfOk result (λ say. say ≡ rewrite_say changed.now) }
{
    if changed.steps.as_slice().len() == 0 {
        return Text::from_str(alloc, "pass");
    }
    query_say(alloc, &changed.query)
}

fn query_say(alloc: Global, query: &Query) -> Result<Text, NoMemory>
    ensures { IfOk result (λ say. say ≡ query_say query.now) }
{
    let mut say = Text::from_str(alloc, "rewritten ")?;
    let kind = kind_text(alloc, query.kind)?;
    say.append(kind.as_str())?;
    say.append(" ")?;
    let name = query.name.text(alloc)?;
    say.append(name.as_str())?;
    Ok(say)
}
