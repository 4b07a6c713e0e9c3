ghost use Rattle.std.specs.Prelude.{◌≡◌, ◌≤◌, [], ◌∷◌, length, MatchOption, IfNone, IfSome};
ghost use Rattle.dns_names.specs.Name.{IsLabel, IsName, spelled};

use crate::Name;
use crate::name::{behind_first, first_label};
use std::marker::Model;

/// The labels of a name from some label on, without a copy. Contracts see the labels that are left.
#[derive(Drop)]
pub struct Labels<'a> {
    rest: &'a [u8],
}

impl<'a> Model for Labels<'a> {
    ghost use Rattle.std.specs.Prelude.{ℕ, List};
    ghost use Rattle.dns_names.specs.Name.{IsWire, labels_of};

    ghost Value = { List (List ℕ) };

    ghost view = { λ s. labels_of s.rest.now };

    ghost invariant = { λ s. IsWire s.rest.now };
}

impl Name {
    /// Its labels from the first on.
    pub fn labels(&self) -> Labels<'_>
        ensures { result ≡ self.now }
    {
        Labels::of(self)
    }
}

impl<'a> Labels<'a> {
    /// All labels of a name.
    pub fn of(name: &'a Name) -> Labels<'a>
        ensures { result ≡ name.now }
    {
        Labels {
            rest: name.as_wire(),
        }
    }

    /// The wire format of the labels that are left, without the zero byte.
    pub fn as_wire(&self) -> &'a [u8]
        ensures value { result.now ≡ spelled self.now }
        ensures proper { IsName self.now }
    {
        self.rest
    }

    /// Takes the next label, where one is left.
    pub fn next(&mut self) -> Option<&'a [u8]>
        ensures value { MatchOption result
            (self.old ≡ []) (λ label. self.old ≡ label.now ∷ self.new) }
        ensures end { IfNone result (self.new ≡ []) }
        ensures label { IfSome result (λ label. IsLabel label.now) }
    {
        let rest = self.rest;
        if rest.len() == 0 {
            return None;
        }
        self.rest = behind_first(rest);
        Some(first_label(rest))
    }
}
