//! For a program that brings no extras.

use dns_data::{Copies, Directive, NoMemory, Query};
use plugin_api::{Extra, Rulebook, Verdict};
use std::alloc::Global;

/// An extra that takes every directive of its name, which is empty, and passes every query. A
/// program that brings no extras has this type, and none of it.
#[derive(Drop)]
pub struct Passing {
    setting: Option<Directive>,
}

/// What is promised of `Passing`.
#[derive(Drop)]
pub struct PassingBook;

impl Passing {
    pub fn new() -> Passing {
        Passing { setting: None }
    }
}

impl Rulebook for PassingBook {
    ghost use Rattle.extra_stock.specs.Passing.{all_pass, all_taken};

    ghost taken = { all_taken };

    ghost said = { all_pass };
}

impl Extra for Passing {
    ghost use Rattle.std.specs.Prelude.{[]};
    ghost use Rattle.extra_stock.specs.Passing.{all_pass, all_taken};

    ghost title = { λ extra. [] };

    ghost takes = { λ extra. all_taken [] };

    ghost ruling = { λ extra. all_pass [] };

    ghost setting = { λ extra. extra.setting };

    fn name(&self) -> &[u8] {
        &[]
    }

    fn accepts(&self, _directive: &Directive) -> bool {
        true
    }

    fn configure(&mut self, alloc: Global, directive: &Directive) -> Result<(), NoMemory> {
        self.setting = Some(directive.copy(alloc)?);
        Ok(())
    }

    fn decide(&mut self, _alloc: Global, _query: &Query) -> Result<Verdict, NoMemory> {
        Ok(Verdict::Pass)
    }
}
