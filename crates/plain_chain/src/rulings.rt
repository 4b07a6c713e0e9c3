//! What the extras of a block's chain say, for the plain evaluator.
ghost use Rattle.std.specs.Prelude.{◌≡◌, IfOk};
ghost use Rattle.extra_stock.specs.{said_at};

use dns_data::{NoMemory, Query};
use extra_stock::Seats;
use plugin_api::{Extra, Rulebook, Verdict};
use std::alloc::Global;

/// What the extras of a block's chain say, of which one is asked at a time.
pub trait Rulings {
    ghost use Rattle.std.specs.Prelude.{List};
    ghost use Rattle.dns_data.specs.declared.directive.Directive.{Directive};
    ghost use Rattle.plugin_api.specs.{Sayings};

    /// The directives that they are set to.
    ghost directives: { Self → List Directive };

    /// What extras say, by name.
    ghost said: { Self → Sayings };

    /// What the one at a place says of a query, which passes where there is none.
    fn ask_at(&mut self, alloc: Global, at: usize, query: &Query) -> Result<Verdict, NoMemory>
        ensures says { IfOk result
            (λ verdict. verdict ≡ said_at (said self.old) (directives self.old) at query.now) }
        ensures stays { said self.new ≡ said self.old }
        ensures set { directives self.new ≡ directives self.old };
}

/// The rulings of a chain without extras.
#[derive(Debug, Drop)]
pub struct NoRulings;

impl Rulings for NoRulings {
    ghost use Rattle.std.specs.Prelude.{[]};
    ghost use Rattle.extra_stock.specs.{all_pass};

    ghost directives = { λ rulings. [] };

    ghost said = { λ rulings. all_pass };

    fn ask_at(&mut self, _alloc: Global, _at: usize, _query: &Query) -> Result<Verdict, NoMemory> {
        Ok(Verdict::Pass)
    }
}

impl<B: Rulebook, E: Extra> Rulings for Seats<B, E> {
    ghost directives = { λ seats. seats };

    ghost said = { λ seats. B.said };

    fn ask_at(&mut self, alloc: Global, at: usize, query: &Query) -> Result<Verdict, NoMemory> {
        self.ask_at(alloc, at, query)
    }
}
