ghost use Rattle.std.specs.Prelude.{◌≡◌, IfOk};
ghost use Rattle.acl_plugin.specs.Lines.{action_of, policy_by, policy_of};
ghost use Rattle.acl_plugin.specs.Acl.{fits};

use crate::kinds::{has_kind, kinds_in};
use crate::nets::{has_net, nets_in};
use crate::part::{Part, takes_all};
use dns_data::{Net, NoMemory, Query, Seq, Text};
use std::alloc::Global;

/// What a policy does with a query that it fits.
#[derive(Clone, Copy, Debug, PartialEq, Eq)]
pub enum Action {
    /// The query goes on behind all policies.
    Allow,
    /// REFUSED.
    Block,
    /// NOERROR without records.
    Filter,
    /// Silence.
    Drop,
}

/// A line of `acl`: what it does, and which queries it fits.
#[derive(Debug, Drop)]
pub struct Policy {
    pub action: Action,
    /// It fits every type, or those that are listed.
    pub all_kinds: bool,
    pub kinds: Seq<u16>,
    /// It fits every client, or those of the nets that are listed.
    pub all_nets: bool,
    pub nets: Seq<Net>,
}

impl Policy {
    /// The policy of a line.
    #[tactic(auto, unfolding(crate::specs::Lines::policy_of))]
    pub(crate) fn of(alloc: Global, line: &[Text]) -> Result<Policy, NoMemory>
        ensures { IfOk result (λ policy. policy ≡ policy_of line.now) }
    {
        match line.split_first() {
            Some((word, words)) => Policy::by(alloc, action_of(word), words),
            None => Policy::by(alloc, None, &[]),
        }
    }

    // The policy of an action and the words behind it.
    fn by(alloc: Global, first: Option<Action>, words: &[Text]) -> Result<Policy, NoMemory>
        ensures { IfOk result (λ policy. policy ≡ policy_by first words.now) }
    {
        Ok(Policy {
            action: first.unwrap_or(Action::Allow),
            all_kinds: takes_all(Part::Types, words),
            kinds: kinds_in(alloc, words)?,
            all_nets: takes_all(Part::Nets, words),
            nets: nets_in(alloc, words)?,
        })
    }

    /// Whether it fits a query, by its type and its client.
    pub(crate) fn fits(&self, query: &Query) -> bool
        ensures { result ≡ fits query.now self.now }
    {
        (self.all_kinds || has_kind(self.kinds.as_slice(), query.kind))
            && (self.all_nets || has_net(self.nets.as_slice(), &query.client))
    }
}

/// The action that a word names.
pub(crate) fn action_of(word: &Text) -> Option<Action>
    ensures { result ≡ action_of word.now }
{
    match word.as_str() {
        "allow" => Some(Action::Allow),
        "block" => Some(Action::Block),
        "filter" => Some(Action::Filter),
        "drop" => Some(Action::Drop),
        _ => None,
    }
}
