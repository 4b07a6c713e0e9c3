ghost use Rattle.std.specs.Prelude.{◌≡◌, Some, true, IsSome, IfSome, IfOk, OnOk, OnErr};

use crate::verdict::Verdict;
use dns_data::{Directive, NoMemory, Query};
use std::alloc::Global;

/// A plugin that a program hands in. It has a name, by which directives ask for it, takes some
/// directives, and rules on queries by the one that it was set to.
pub trait Extra: Drop {
    ghost use Rattle.std.specs.Prelude.{◌≡◌, List, ℕ, Bool, Option};
    ghost use Rattle.dns_data.specs.declared.directive.Directive.{Directive};
    ghost use Rattle.dns_data.specs.declared.query.Query.{Query};
    ghost use Rattle.plugin_api.specs.declared.verdict.Verdict.{Verdict};

    /// Its name.
    ghost title: { Self → List ℕ };

    /// Which directives it takes.
    ghost takes: { Self → Directive → Bool };

    /// What it says of a query by a directive.
    ghost ruling: { Self → Directive → Query → Verdict };

    /// The directive that it was set to.
    ghost setting: { Self → Option Directive };

    fn name(&self) -> &[u8]
        ensures { result.now ≡ title self.now };

    /// Whether it takes a directive.
    fn accepts(&self, directive: &Directive) -> bool
        ensures { result ≡ takes self.now directive.now };

    /// Sets it to a directive that it takes. Without memory the setting stays.
    fn configure(&mut self, alloc: Global, directive: &Directive) -> Result<(), NoMemory>
        requires { takes self.old directive.now ≡ true }
        ensures ok { OnOk result (setting self.new ≡ Some directive.now) }
        ensures err { OnErr result (setting self.new ≡ setting self.old) }
        ensures title { title self.new ≡ title self.old }
        ensures takes { takes self.new ≡ takes self.old }
        ensures ruling { ruling self.new ≡ ruling self.old };

    /// Rules on a query by its setting, which there is.
    fn decide(&mut self, alloc: Global, query: &Query) -> Result<Verdict, NoMemory>
        requires { IsSome (setting self.old) }
        ensures rules { IfOk result
            (λ v. IfSome (setting self.old) (λ d. v ≡ ruling self.old d query.now)) }
        ensures setting { setting self.new ≡ setting self.old }
        ensures title { title self.new ≡ title self.old }
        ensures takes { takes self.new ≡ takes self.old }
        ensures ruling { ruling self.new ≡ ruling self.old };
}

/// A boxed one means what is in the box. All code below the call that takes boxes from a program is
/// generic over extras, so that types can keep what is known of them.
impl Extra for Box<dyn Extra + Send> {
    ghost title = { λ b. (Extra-box b).title b.value };

    ghost takes = { λ b. (Extra-box b).takes b.value };

    ghost ruling = { λ b. (Extra-box b).ruling b.value };

    ghost setting = { λ b. (Extra-box b).setting b.value };

    fn name(&self) -> &[u8] {
        (**self).name()
    }

    fn accepts(&self, directive: &Directive) -> bool {
        (**self).accepts(directive)
    }

    fn configure(&mut self, alloc: Global, directive: &Directive) -> Result<(), NoMemory> {
        (**self).configure(alloc, directive)
    }

    fn decide(&mut self, alloc: Global, query: &Query) -> Result<Verdict, NoMemory> {
        (**self).decide(alloc, query)
    }
}
