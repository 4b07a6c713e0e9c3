ghost use Rattle.std.specs.Prelude.{◌≡◌, [], ◌∷◌, ◌++◌, IfOk, OnOk};
ghost use Rattle.rewrite_plugin.specs.declared.steps.Step.{Step};

use dns_data::{Copies, Name, NoMemory};
use std::alloc::Global;
use std::marker::Model;

/// A rule that was applied to a query, by its number among the directives of a block.
#[derive(Debug, Drop)]
pub struct Step {
    pub rule: usize,
    pub before: Name,
    pub after: Name,
}

impl Step {
    // A step with names of its own.
    #[cold]
    #[inline(never)]
    fn of(alloc: Global, rule: usize, before: &Name, after: &Name) -> Result<Step, NoMemory>
        ensures { IfOk result
            (λ step. step ≡ record { rule = rule; before = before.now; after = after.now }) }
    {
        Ok(Step {
            rule,
            before: before.copy(alloc)?,
            after: after.copy(alloc)?,
        })
    }

    // Becomes another one, in the room of its names.
    #[inline]
    fn set(&mut self, rule: usize, before: &Name, after: &Name) -> Result<(), NoMemory>
        ensures { OnOk result
            (self.new ≡ record { rule = rule; before = before.now; after = after.now }) }
    {
        self.rule = rule;
        self.before.set(before)?;
        self.after.set(after)
    }
}

/// The rules that were applied to a query, in their order, in the room of those of earlier queries.
/// Where names have at most 38 bytes, a step in the room of another one takes no memory. Contracts
/// see the steps of the list alone.
#[derive(Debug, Drop)]
pub struct Steps {
    // The steps of the list, and behind them those that stood in it before.
    items: Vec<Step>,
    count: usize,
}

impl Model for Steps {
    ghost use Rattle.std.specs.Prelude.{List, ◌≤◌, take, vec_len};
    ghost use Rattle.rewrite_plugin.specs.declared.steps.Step.{Step};

    ghost Value = { List Step };

    ghost view = { λ s. take s.count s.items.items };

    ghost invariant = { λ s. s.count ≤ vec_len s.items };
}

impl Steps {
    /// No steps.
    pub fn new(alloc: Global) -> Steps
        ensures { result ≡ [] }
    {
        Steps {
            items: Vec::new(alloc),
            count: 0,
        }
    }

    /// The steps of the list.
    #[inline]
    pub fn as_slice(&self) -> &[Step]
        ensures { result.now ≡ self.now }
    {
        &self.items[..self.count]
    }

    /// Empties the list, and keeps the room.
    #[inline]
    pub(crate) fn clear(&mut self)
        ensures { self.new ≡ [] }
    {
        self.count = 0;
    }

    /// Adds a step.
    #[inline]
    pub(crate) fn push(
        &mut self,
        alloc: Global,
        rule: usize,
        before: &Name,
        after: &Name,
    ) -> Result<(), NoMemory>
        ensures { OnOk result (self.new
            ≡ self.old ++ record { rule = rule; before = before.now; after = after.now } ∷ []) }
    {
        if self.count < self.items.len() {
            self.items[self.count].set(rule, before, after)?;
            self.count += 1;
            return Ok(());
        }
        let step = Step::of(alloc, rule, before, after)?;
        self.push_far(step)
    }

    // Adds a step behind all that stood here before.
    #[cold]
    #[inline(never)]
    fn push_far(&mut self, step: Step) -> Result<(), NoMemory>
        ensures { OnOk result (self.new ≡ self.old ++ step ∷ []) }
    {
        self.items.truncate(self.count);
        self.items.push(step)?;
        self.count += 1;
        Ok(())
    }
}
