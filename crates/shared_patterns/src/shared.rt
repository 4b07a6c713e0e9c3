ghost use Rattle.std.specs.Prelude.{◌≡◌, IfOk, IsTrue};
ghost use Rattle.regex_hir.specs.Find.{find_str};
ghost use Rattle.regex.specs.Search.{Answers};
ghost use Rattle.regex.specs.Strings.{regex_pattern};
ghost use Rattle.pattern.specs.Searches.{IsFoundIn};
ghost use Rattle.outside.specs.{IsPatternOf};

use dns_data::{Copies, NoMemory, Text};
use pattern::{Pattern, Scratch};
use std::alloc::{AllocError, Global};
use std::marker::Model;
use std::sync::Arc;

/// A pattern that is made, with its text. Contracts see the `Regex`.
#[derive(Debug, Drop)]
pub struct SharedPattern {
    text: Text,
    pattern: Arc<Pattern>,
}

impl Model for SharedPattern {
    ghost use Rattle.std.specs.Arc.{arc_value};
    ghost use Rattle.outside.specs.{IsPatternOf};
    ghost use Rattle.regex.specs.declared.string.regex.Regex.{Regex};
    ghost use Rattle.regex.specs.contracts.string.regex.Regex.{the_row};

    ghost Value = { Regex };

    ghost coded = { the_row.coded };

    ghost view = { λ s. arc_value s.pattern };

    ghost invariant = { λ s. IsPatternOf s.text (arc_value s.pattern) };
}

impl SharedPattern {
    /// A pattern of this text.
    pub(crate) fn new(
        alloc: Global,
        text: &Text,
        pattern: Pattern,
    ) -> Result<SharedPattern, NoMemory>
        requires { IsPatternOf text.now pattern }
        ensures { IfOk result (λ shared. shared ≡ pattern) }
    {
        let text = text.copy(alloc)?;
        Ok(SharedPattern {
            text,
            pattern: Arc::new(alloc, pattern)?,
        })
    }

    /// The same pattern once more, which isn't compiled again.
    pub fn share(&self, alloc: Global) -> Result<SharedPattern, NoMemory>
        ensures { IfOk result (λ shared. shared ≡ self.now) }
    {
        let text = self.text.copy(alloc)?;
        Ok(SharedPattern {
            text,
            pattern: Arc::try_clone(&self.pattern)?,
        })
    }

    /// The start and the end of the leftmost match. With `keep`, the scratch has its groups after.
    #[inline]
    pub fn find(
        &self,
        scratch: &mut Scratch,
        text: &str,
        keep: bool,
    ) -> Result<Option<(usize, usize)>, AllocError>
        ensures { IfOk result (λ found. Answers found (find_str (regex_pattern self.now) text.now 0)
            (IsFoundIn self.now text.now keep scratch.new)) }
    {
        self.pattern.find(scratch, text, keep)
    }

    /// The pattern.
    #[inline]
    pub fn pattern(&self) -> &Pattern
        ensures { result.now ≡ self.now }
    {
        &self.pattern
    }

    /// Whether it is the pattern of a text.
    pub fn is_of(&self, text: &Text) -> bool
        ensures { IsTrue result → IsPatternOf text.now self.now }
    {
        self.text.is(text.as_str())
    }
}
