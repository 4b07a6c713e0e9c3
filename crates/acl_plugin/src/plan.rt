ghost use Rattle.std.specs.Prelude.{◌≡◌, IfOk};
ghost use Rattle.acl_plugin.specs.Acl.{ReadsAcl, acl_say, first_action, plan_action, policies_of};
ghost use Rattle.acl_plugin.specs.Acl.{said};

use crate::policy::{Action, Policy};
use crate::reading::body_fault;
use dns_data::{Copies, Directive, Line, Names, NoMemory, Query, Seq};
use plugin_api::{DirectiveFault, DirectiveWhy};
use std::alloc::Global;
use std::marker::Model;
use zone_words::{is_in, read_zones};

/// What `acl` says of a query: it goes on, is answered REFUSED, is answered NOERROR without
/// records, or gets no answer.
#[derive(Clone, Copy, Debug, PartialEq, Eq)]
pub enum AclSay {
    GoOn,
    Block,
    Filter,
    Drop,
}

/// A directive `acl`, with what was made of its words once. Contracts see the directive, and the
/// zones of its block.
#[derive(Debug, Drop)]
pub struct AclPlan {
    directive: Directive,
    default: Names,
    zones: Names,
    policies: Seq<Policy>,
}

impl Model for AclPlan {
    ghost use Rattle.std.specs.Prelude.{◌≡◌};
    ghost use Rattle.plugin_api.specs.{PlanData};
    ghost use Rattle.acl_plugin.specs.Acl.{plan_zones, policies_of};

    ghost Value = { PlanData };

    ghost view = { λ p. record { directive = p.directive; zones = p.default } };

    ghost invariant = { λ p.
        (p.zones ≡ plan_zones (record { directive = p.directive; zones = p.default }))
        × (p.policies ≡ policies_of p.directive.body) };
}

impl AclPlan {
    /// Reads a directive of a block with these zones, or says what is wrong with it.
    #[tactic(auto, unfolding(crate::specs::Acl::acl_fault))]
    pub fn read(
        alloc: Global,
        directive: &Directive,
        zones: &Names,
    ) -> Result<AclPlan, DirectiveFault>
        ensures { ReadsAcl directive.now zones.now result }
    {
        let Some(own) = read_zones(alloc, zones, directive.args.as_slice())? else {
            return Err(DirectiveFault::Why {
                line: directive.line,
                why: DirectiveWhy::Zone,
            });
        };
        if let Some(fault) = body_fault(directive.line, directive.body.as_slice()) {
            return Err(fault);
        }
        Ok(AclPlan {
            policies: policies_of(alloc, directive.body.as_slice())?,
            directive: directive.copy(alloc)?,
            default: zones.copy(alloc)?,
            zones: own,
        })
    }

    // The action of the first policy that fits, where the name is in the zones.
    fn action(&self, query: &Query) -> Option<Action>
        ensures { result ≡ plan_action query.now self.now }
    {
        if !is_in(&query.name, self.zones.as_slice()) {
            return None;
        }
        first_action(query, self.policies.as_slice())
    }
}

// The policies of lines.
fn policies_of(alloc: Global, lines: &[Line]) -> Result<Seq<Policy>, NoMemory>
    ensures { IfOk result (λ policies. policies ≡ policies_of lines.now) }
{
    let mut policies = Seq::new(alloc);
    let mut rest = lines;
    while let Some((line, behind)) = rest.split_first() {
        policies.push(Policy::of(alloc, line.words.as_slice())?)?;
        rest = behind;
    }
    Ok(policies)
}

// The action of the first policy that fits.
fn first_action(query: &Query, policies: &[Policy]) -> Option<Action>
    ensures { result ≡ first_action query.now policies.now }
{
    for policy in policies {
        if policy.fits(query) {
            return Some(policy.action);
        }
    }
    None
}

/// What the plans of a block say of a query: the first policy that fits decides, over all plans
/// whose zones hold the name. Without one the query goes on.
pub fn decide(plans: &[AclPlan], query: &Query) -> AclSay
    ensures { result ≡ acl_say plans.now query.now }
{
    for plan in plans {
        if let Some(action) = plan.action(query) {
            return said(action);
        }
    }
    AclSay::GoOn
}

fn said(action: Action) -> AclSay
    ensures { result ≡ said action }
{
    match action {
        Action::Allow => AclSay::GoOn,
        Action::Block => AclSay::Block,
        Action::Filter => AclSay::Filter,
        Action::Drop => AclSay::Drop,
    }
}
