ghost use Rattle.std.specs.Prelude.{◌≡◌, ℕ, ◌*◌, ◌<◌, ◌≤◌, vec_len, slice_range, option_map, None};
ghost use Rattle.std.specs.Prelude.{OnOk, IfSome};
ghost use Rattle.regex.specs.Writes.{both};
ghost use Rattle.pattern.specs.Searches.{position};

use regex::CaptureLocations;
use regex_vm::Backtracker;
use std::alloc::{AllocError, Global};

/// What a search writes to. One serves any number of patterns, one after another; once it has
/// grown, a search takes no memory. It keeps the groups of the last match.
#[derive(Drop)]
pub struct Scratch {
    pub(crate) alloc: Global,
    pub(crate) backtracker: Backtracker,
    /// From group 1 on, a start and an end for each group: a position plus one, or 0 for none.
    pub(crate) cells: Vec<usize>,
    pub(crate) spans: Vec<Option<(usize, usize)>>,
}

/// The span that two cells hold.
#[inline]
fn span_of(first: usize, last: usize) -> Option<(usize, usize)>
    ensures { result ≡ both (position first) (position last) }
{
    if first == 0 || last == 0 {
        None
    } else {
        Some((first - 1, last - 1))
    }
}

impl Scratch {
    ghost use Rattle.pattern.specs.Searches.{scratch_group, span_of_cells, IsPartOf};
    ghost use Rattle.regex.specs.Locations.{location};

    /// Takes no memory yet.
    pub fn new(alloc: Global) -> Scratch {
        Scratch {
            alloc,
            backtracker: Backtracker::new(alloc),
            cells: Vec::new(alloc),
            spans: Vec::new(alloc),
        }
    }

    /// The start and the end of a group in the last match whose groups were kept, if the group took
    /// part.
    pub fn group(&self, number: usize) -> Option<(usize, usize)>
        ensures { result ≡ scratch_group self.now number }
    {
        if number < self.spans.len() {
            self.spans[number]
        } else {
            None
        }
    }

    /// The part of the text that a group matched, if the group took part.
    pub fn part<'h>(&self, text: &'h str, number: usize) -> Option<&'h str>
        requires { IfSome (scratch_group self.now number) (IsPartOf text.now) }
        ensures { option_map (λ p. p.now) result
            ≡ option_map (λ s. slice_range text.now s.0 s.1) (scratch_group self.now number) }
    {
        let (start, end) = self.group(number)?;
        Some(&text[start..end])
    }

    /// Room for this many groups, group 0 included.
    pub(crate) fn make_room(&mut self, groups: u32) -> Result<(), AllocError>
        ensures cells { OnOk result (vec_len self.new.cells ≡ 2 * groups) }
        ensures spans { OnOk result (vec_len self.new.spans ≡ groups) }
    {
        let groups = groups as usize;
        self.cells.clear();
        self.cells.resize(2 * groups, 0)?;
        self.spans.clear();
        self.spans.resize(groups, None)
    }

    /// The groups from the span and the cells of a match.
    pub(crate) fn read_cells(&mut self, whole: Option<(usize, usize)>)
        requires { 2 * vec_len self.old.spans ≤ vec_len self.old.cells }
        ensures whole { 0 < vec_len self.old.spans → scratch_group self.new 0 ≡ whole }
        ensures each { (n : ℕ) → 1 ≤ n → n < vec_len self.old.spans → scratch_group self.new n
            ≡ span_of_cells self.old.cells.items n }
        ensures none { (n : ℕ) → vec_len self.old.spans ≤ n → scratch_group self.new n ≡ None }
    {
        if self.spans.is_empty() {
            return;
        }
        self.spans[0] = whole;
        'groups: for number in 1..self.spans.len() {
            let first = self.cells[2 * number - 2];
            let last = self.cells[2 * number - 1];
            self.spans[number] = span_of(first, last);
        }
    }

    /// The groups as a matcher found them.
    pub(crate) fn copy(&mut self, locations: &CaptureLocations) -> Result<(), AllocError>
        ensures { OnOk result ((n : ℕ) → scratch_group self.new n ≡ location locations.now n) }
    {
        self.spans.clear();
        'groups: for number in 0..locations.len() {
            self.spans.push(locations.get(number))?;
        }
        Ok(())
    }
}
