ghost use Rattle.std.specs.Prelude.{◌≡◌, ◌≤◌, ◌<◌, length, IfSome};
ghost use Rattle.std.specs.List.{list_any};
ghost use Rattle.forward_plugin.specs.Forward.{cyclic, is_probe, is_up, mask_by, numbered};
ghost use Rattle.forward_plugin.specs.Forward.{plan_turn, start_by};
ghost use Rattle.forward_plugin.specs.Options.{by_of, fails_of, is_for, is_pooled};

use crate::numbered::Numbered;
use crate::options::Policy;
use crate::rounds::is_up;
use crate::turn::Turn;
use dns_data::{Directive, Name, Names, Seq, Transport};
use outside::Upstream;
use std::marker::Model;
use upstream_health::Drawn;
use zone_words::is_in;

/// A directive `forward`, with what was made of its words and files once. Contracts see the
/// directive and its upstreams.
#[derive(Debug, Drop)]
pub struct ForwardPlan {
    pub(crate) directive: Directive,
    pub(crate) upstreams: Seq<Upstream>,
    pub(crate) from: Name,
    pub(crate) except: Names,
    pub(crate) is_forced: bool,
    pub(crate) policy: Policy,
    pub(crate) most: u32,
    pub(crate) is_pooled: bool,
    // The upstreams with their numbers, twice, so that from each of them on all of them follow.
    pub(crate) ring: Seq<Numbered>,
}

impl Model for ForwardPlan {
    ghost use Rattle.forward_plugin.specs.Options.{ForwardData};
    ghost use Rattle.forward_plugin.specs.Made.{IsMade};

    ghost Value = { ForwardData };

    ghost view = { λ p. record { directive = p.directive; upstreams = p.upstreams } };

    ghost invariant = { λ p. IsMade
        (record { directive = p.directive; upstreams = p.upstreams })
        (record {
          from = p.from;
          except = p.except;
          is_forced = p.is_forced;
          policy = p.policy;
          most = p.most;
          is_pooled = p.is_pooled;
          ring = p.ring;
        }) };
}

impl ForwardPlan {
    /// Whether it is for this name.
    pub fn is_for(&self, name: &Name) -> bool
        ensures { result ≡ is_for self.now name.now }
    {
        name.is_within(&self.from) && !is_in(name, self.except.as_slice())
    }

    /// Whether workers share a pool for it.
    pub fn is_pooled(&self) -> bool
        ensures { result ≡ is_pooled self.now }
    {
        self.is_pooled
    }

    /// How many upstreams it has.
    pub fn count(&self) -> usize
        ensures value { result ≡ length self.now.upstreams }
        ensures some { (0 < result) × (result ≤ 15) }
    {
        self.upstreams.len()
    }

    /// How many failed tries in a row leave an upstream out.
    pub fn most_fails(&self) -> u32
        ensures { result ≡ fails_of self.now.directive.body }
    {
        self.most
    }

    /// Over what its upstreams are asked.
    pub fn by(&self, by: Transport) -> Transport
        ensures { result ≡ by_of self.now by }
    {
        if self.is_forced {
            return Transport::Tcp;
        }
        by
    }

    /// All upstreams, from this one on.
    pub fn from_on(&self, start: usize) -> &[Numbered]
        requires { start < length self.now.upstreams }
        ensures { result.now ≡ cyclic start (numbered self.now.upstreams) }
    {
        let count = self.upstreams.len();
        &self.ring.as_slice()[start..start + count]
    }

    /// The turn of a query.
    pub fn turn(&self, drawn: Drawn) -> Turn
        ensures value { result ≡ plan_turn self.now drawn }
        ensures inside { IfSome result.start (λ start. start < length self.now.upstreams) }
    {
        let count = self.upstreams.len() as u64;
        if is_probe(self.most, drawn.number) {
            return Turn {
                start: Some((drawn.number / 16 % count) as usize),
                mask: 0,
            };
        }
        Turn {
            start: start_by(self.policy, drawn.number, count),
            mask: mask_by(self.most, drawn.down, self.numbered()),
        }
    }

    // The upstreams with their numbers.
    fn numbered(&self) -> &[Numbered]
        ensures { result.now ≡ numbered self.now.upstreams }
    {
        let count = self.upstreams.len();
        &self.ring.as_slice()[..count]
    }
}

// Those that are left out: the ones that are down, unless all are.
fn mask_by(most: u32, down: u16, numbered: &[Numbered]) -> u16
    ensures { result ≡ mask_by most down numbered.now }
{
    if 0 < most && any_up(numbered, down) {
        return down;
    }
    0
}

fn any_up(numbered: &[Numbered], down: u16) -> bool
    ensures { result ≡ list_any (is_up down) numbered.now }
{
    for p in numbered {
        if is_up(down, p) {
            return true;
        }
    }
    false
}

fn is_probe(most: u32, number: u64) -> bool
    ensures { result ≡ is_probe most number }
{
    0 < most && number % 16 == 15
}

fn start_by(policy: Policy, number: u64, count: u64) -> Option<usize>
    requires { 0 < count }
    ensures value { result ≡ start_by policy number count }
    ensures inside { IfSome result (λ start. start < count) }
{
    match policy {
        Policy::Random => None,
        Policy::RoundRobin => Some((number % count) as usize),
        Policy::Sequential => Some(0),
    }
}
