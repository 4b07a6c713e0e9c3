ghost use Rattle.std.specs.Prelude.{◌≡◌, true, option_map, IsTrue, IfOk, OnOk, IfSome};
ghost use Rattle.regex_hir.specs.Find.{find_str};
ghost use Rattle.regex_vm.specs.Found.{span};
ghost use Rattle.regex_syntax.specs.Verdict.{default_config};
ghost use Rattle.regex.specs.Search.{Answers};
ghost use Rattle.regex.specs.Strings.{regex_pattern, regex_config, group_count, IsReadFromSource};
ghost use Rattle.pattern.specs.Searches.{KeepsGroups, HasGroups, IsPartOf, IsFoundIn};

use crate::automaton::Automaton;
use crate::scratch::Scratch;
use regex::Regex;
use std::alloc::{AllocError, Global};
use std::fmt;
use std::marker::Model;

/// Seen as one value, so that a pattern is put together without a look into the `Regex`.
#[derive(Drop)]
struct Inner {
    regex: Regex,
    /// None where the pattern could not be compiled again: each search then makes a matcher.
    automaton: Option<Automaton>,
}

impl Model for Inner {
    ghost use Rattle.regex.specs.declared.string.regex.Regex.{Regex};
    ghost use Rattle.regex.specs.contracts.string.regex.Regex.{the_row};
    ghost use Rattle.regex.specs.Strings.{regex_pattern, group_count};
    ghost use Rattle.std.specs.Prelude.{IfSome, ◌≡◌};

    ghost Value = { Regex };

    ghost coded = { the_row.coded };

    ghost use Rattle.pattern.specs.Searches.{Runs};

    ghost view = { λ inner. inner.regex };

    ghost invariant = { λ inner. IfSome inner.automaton (λ it.
        Runs it (regex_pattern inner.regex) × (it.groups ≡ group_count inner.regex)) };
}

/// A compiled pattern that may cross threads, in clauses its `Regex`. It cannot be cloned: share it
/// by a `&` or an `Arc`, or compile its text again.
#[derive(Drop)]
pub struct Pattern {
    inner: Inner,
}

impl Model for Pattern {
    ghost use Rattle.std.specs.Borrow.{ftrue};
    ghost use Rattle.regex.specs.declared.string.regex.Regex.{Regex};
    ghost use Rattle.regex.specs.contracts.string.regex.Regex.{the_row};

    ghost Value = { Regex };

    ghost coded = { the_row.coded };

    ghost view = { λ pattern. pattern.inner };

    ghost also_owns = { λ _. ftrue };

    ghost also_shares = { λ _ _ _. ftrue };
}

// SAFETY: no part of a `Regex` or of an automaton belongs to one thread; proved field by field in
// proofs/Crossings.antt.
unsafe impl Send for Pattern {}

// SAFETY: nothing changes behind a `&` to them; proved field by field in proofs/Sharings.antt.
unsafe impl Sync for Pattern {}

impl Inner {
    fn new(alloc: Global, regex: Regex) -> Result<Inner, AllocError>
        requires { (regex_config regex ≡ default_config) × IsReadFromSource regex }
        ensures { IfOk result (λ inner. inner ≡ regex) }
    {
        let automaton = Automaton::new(alloc, regex.as_str())?;
        Ok(Inner { regex, automaton })
    }

    fn find(
        &self,
        scratch: &mut Scratch,
        text: &str,
        keep: bool,
    ) -> Result<Option<(usize, usize)>, AllocError>
        ensures found { IfOk result (λ found.
            found ≡ option_map span (find_str (regex_pattern self.now) text.now 0)) }
        ensures part { IfOk result (λ found. IfSome found (IsPartOf text.now)) }
        ensures groups { IsTrue keep → OnOk result
            (IfSome (find_str (regex_pattern self.now) text.now 0)
            (λ m. KeepsGroups self.now text.now m scratch.new)) }
    {
        if let Some(automaton) = &self.automaton {
            if let Ok(found) = automaton.find(scratch, text, keep) {
                return Ok(found);
            }
        }
        find_anew(&self.regex, scratch, text)
    }
}

/// By a matcher of its own.
#[cold]
#[inline(never)]
fn find_anew(
    regex: &Regex,
    scratch: &mut Scratch,
    text: &str,
) -> Result<Option<(usize, usize)>, AllocError>
    ensures found { IfOk result (λ found.
        found ≡ option_map span (find_str (regex_pattern regex.now) text.now 0)) }
    ensures groups { OnOk result (IfSome (find_str (regex_pattern regex.now) text.now 0)
        (λ m. HasGroups (group_count regex.now) m scratch.new)) }
{
    let mut locations = regex.capture_locations(scratch.alloc)?;
    let mut matcher = regex.matcher(scratch.alloc)?;
    let Some(found) = matcher.captures_read(&mut locations, text) else {
        return Ok(None);
    };
    let span = (found.start(), found.end());
    scratch.copy(&locations)?;
    Ok(Some(span))
}

impl Pattern {
    /// Compiles the text of the pattern a second time, into what a scratch runs.
    pub fn new(alloc: Global, regex: Regex) -> Result<Pattern, AllocError>
        requires { (regex_config regex ≡ default_config) × IsReadFromSource regex }
        ensures { IfOk result (λ pattern. pattern ≡ regex) }
    {
        let inner = Inner::new(alloc, regex)?;
        Ok(Pattern::of(inner))
    }

    fn of(inner: Inner) -> Pattern
        ensures { result ≡ inner }
    {
        Pattern { inner }
    }

    /// The start and the end of the leftmost match. With `keep`, the scratch has its groups after.
    pub fn find(
        &self,
        scratch: &mut Scratch,
        text: &str,
        keep: bool,
    ) -> Result<Option<(usize, usize)>, AllocError>
        ensures { IfOk result (λ found. Answers found (find_str (regex_pattern self.now) text.now 0)
            (IsFoundIn self.now text.now keep scratch.new)) }
    {
        self.inner.find(scratch, text, keep)
    }

    /// The `Regex`, whose matchers search.
    pub fn as_regex(&self) -> &Regex
        ensures { result.now ≡ self.now }
    {
        &self.inner.regex
    }
}

impl fmt::Debug for Pattern {
    fn fmt<W: fmt::Write>(&self, f: &mut fmt::Formatter<W>) -> fmt::Result {
        f.debug_tuple("Pattern")
            .field(&self.as_regex().as_str())
            .finish()
    }
}
