ghost use Rattle.std.specs.Prelude.{◌≡◌, ◌↔◌, is_some, map, nat_eq, IfSome, IsTrue};
ghost use Rattle.std.specs.Cmp.Lexicographic.{pointwise};
ghost use Rattle.std.specs.List.{list_any};
ghost use Rattle.plugin_api.specs.{Obey};
ghost use Rattle.dns_data.specs.declared.directive.Directive.{Directive};
ghost use Rattle.chain_build.specs.Judging.{judged};

use dns_data::{Directive, Text};
use plugin_api::{Extra, Rulebook};
use std::marker::PhantomData;

/// Who judges the directives of extras: whether the program brings any of their name, and whether
/// these take them.
pub trait Judges {
    ghost use Rattle.std.specs.Prelude.{List, ℕ, Bool};
    ghost use Rattle.plugin_api.specs.{Takings};

    /// Whether there are extras of a name.
    ghost named: { Self → List ℕ → Bool };

    /// Which directives those of a name take.
    ghost taken: { Self → Takings };

    /// Whether a directive is taken. None: there are no extras of its name.
    fn judge(&self, directive: &Directive) -> Option<bool>
        ensures { result ≡ judged (named self.now) (taken self.now) directive.now };
}

/// The judges of a program: an extra of each name that it brings.
#[derive(Drop)]
pub struct Bench<'a, B: Rulebook, E: Extra> {
    pub judges: &'a [E],
    pub of: PhantomData<B>,
    ghost obey: { Obey B.taken B.said E.title E.takes E.ruling judges.now },
}

impl<'a, B: Rulebook, E: Extra> Judges for Bench<'a, B, E> {
    ghost use Rattle.std.specs.Prelude.{map};
    ghost use Rattle.chain_meaning.specs.{named_in};

    ghost named = { λ bench. named_in (map E.title bench.judges.now) };

    ghost taken = { λ bench. B.taken };

    fn judge(&self, directive: &Directive) -> Option<bool> {
        let judge = judge_of::<B, E>(self.judges, &directive.name)?;
        Some(judge.accepts(directive))
    }
}

// The judge of a name.
fn judge_of<'a, B: Rulebook, E: Extra>(judges: &'a [E], name: &Text) -> Option<&'a E>
    requires judges { Obey B.taken B.said E.title E.takes E.ruling judges.now }
    ensures some { is_some result ≡ list_any (pointwise nat_eq name.now) (map E.title judges.now) }
    ensures takes { IfSome result (λ judge. (d : Directive)
        → E.takes judge.now d ≡ B.taken name.now d) }
{
    for judge in judges {
        if is_same(name.as_str().as_bytes(), judge.name()) {
            return Some(judge);
        }
    }
    None
}

// Whether two names are the same, letter by letter.
fn is_same(name: &[u8], other: &[u8]) -> bool
    ensures value { result ≡ pointwise nat_eq name.now other.now }
    ensures same { IsTrue result ↔ (name.now ≡ other.now) }
{
    name == other
}

/// Takes every directive of every name that no plugin of this server has.
#[derive(Debug, Drop)]
pub struct AllTaken;

impl Judges for AllTaken {
    ghost use Rattle.std.specs.Prelude.{true};

    ghost named = { λ judges name. true };

    ghost taken = { λ judges name directive. true };

    fn judge(&self, _directive: &Directive) -> Option<bool> {
        Some(true)
    }
}
