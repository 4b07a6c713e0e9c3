ghost use Rattle.std.specs.Prelude.{◌≡◌, ℕ, ◌*◌, ◌<◌, ◌≤◌, true, false, None, option_map, IsTrue};
ghost use Rattle.std.specs.Prelude.{IfOk, OnOk, IfSome, eqb, vec_len, length};
ghost use Rattle.std.specs.List.{ends_with};
ghost use Rattle.regex_extract.specs.Needles.{needles_of};
ghost use Rattle.regex_hir.specs.Meaning.{meaning};
ghost use Rattle.regex_hir.specs.Re.{Re};
ghost use Rattle.regex_hir.specs.Text.{is_boundary};
ghost use Rattle.regex_hir.specs.Find.{find_str};
ghost use Rattle.regex_vm.specs.Found.{span};
ghost use Rattle.regex.specs.Writes.{group_of};
ghost use Rattle.pattern.specs.Searches.{Runs, IsReadIn, IsEndOf, IsTailOf, CellsAreOf, HasGroups};
ghost use Rattle.pattern.specs.Searches.{last_start};

use crate::scratch::Scratch;
use regex_hir::Hir;
use regex_nfa::Nfa;
use regex_syntax::{Config, ErrorKind, Parsed};
use regex_vm::{Backtracker, Declined};
use std::alloc::{AllocError, Global};

/// As in `regex`: about the most bytes that a compiled pattern may take.
const SIZE_LIMIT: usize = 10 << 20;

/// A pattern in the form that the backtracker runs.
#[derive(Drop)]
pub(crate) struct Automaton {
    nfa: Nfa,
    /// How many groups the pattern has, group 0 included.
    groups: u32,
    /// Whether every match starts where the text starts.
    at_start: bool,
    /// Where every match ends with the text, and with one of these: they.
    endings: Option<Vec<Vec<u8>>>,
    /// Where every match ends with the text: no match is longer than this.
    longest: Option<usize>,
}

#[inline]
fn is_cut(hay: &[u8], at: usize) -> bool
    ensures { result ≡ is_boundary hay.now at }
{
    if at >= hay.len() {
        return true;
    }
    (hay[at] < 0x80) | (hay[at] > 0xBF)
}

/// Whether a text ends with another one. Most that it doesn't end with differ in their first byte.
#[inline]
fn ends_with(text: &[u8], end: &[u8]) -> bool
    ensures { result ≡ ends_with eqb text.now end.now }
{
    if 0 < end.len() && end.len() <= text.len() {
        if text[text.len() - end.len()] != end[0] {
            return false;
        }
    }
    text.ends_with(end)
}

/// What every match ends with, if every match also ends with the text.
fn endings_of(alloc: Global, hir: &Hir) -> Result<Option<Vec<Vec<u8>>>, AllocError>
    ensures { IfOk result (λ o. IfSome o (λ v. IsEndOf (meaning hir.now) (needles_of v))) }
{
    if regex_extract::is_anchored_end(hir) {
        regex_extract::suffixes(alloc, hir)
    } else {
        Ok(None)
    }
}

/// The most bytes of a match, if every match ends with the text.
fn longest_of(hir: &Hir) -> Option<usize>
    ensures { IfSome result (IsTailOf (meaning hir.now)) }
{
    if regex_extract::is_anchored_end(hir) {
        regex_extract::max_len(hir)
    } else {
        None
    }
}

impl Automaton {
    /// None where the text cannot be compiled again, for another cause than memory.
    pub(crate) fn new(alloc: Global, source: &str) -> Result<Option<Automaton>, AllocError>
        ensures { IfOk result (λ o. IfSome o (λ it. IsReadIn source.now it)) }
    {
        let Parsed { hir, names } = match regex_syntax::parse(alloc, source, &Config::default()) {
            Ok(parsed) => parsed,
            Err(error) if error.kind == ErrorKind::OutOfMemory => return Err(AllocError),
            Err(_) => return Ok(None),
        };
        let Ok(groups) = u32::try_from(names.len()) else {
            return Ok(None);
        };
        let nfa = match regex_compile::compile(alloc, &hir, groups, SIZE_LIMIT) {
            Ok(nfa) => nfa,
            Err(regex_compile::Error::OutOfMemory) => return Err(AllocError),
            Err(_) => return Ok(None),
        };
        let endings = endings_of(alloc, &hir)?;
        Ok(Some(Automaton {
            nfa,
            groups,
            at_start: regex_extract::is_anchored_start(&hir),
            endings,
            longest: longest_of(&hir),
        }))
    }

    /// The span of the leftmost match. With `keep`, the scratch has its groups.
    pub(crate) fn find(
        &self,
        scratch: &mut Scratch,
        text: &str,
        keep: bool,
    ) -> Result<Option<(usize, usize)>, Declined>
        ensures found { IfOk result (λ found. (re : Re) → Runs self.now re
            → found ≡ option_map span (find_str re text.now 0)) }
        ensures groups { IsTrue keep → OnOk result ((re : Re) → Runs self.now re →
            IfSome (find_str re text.now 0) (λ m. HasGroups self.now.groups m scratch.new)) }
    {
        let hay = text.as_bytes();
        if !self.ends_well(hay) {
            return Ok(None);
        }
        scratch.make_room(if keep { self.groups } else { 0 })?;
        let found = self.leftmost(&mut scratch.backtracker, hay, scratch.cells.as_mut_slice())?;
        scratch.read_cells(found);
        Ok(found)
    }

    /// Whether the text ends as every match does.
    fn ends_well(&self, hay: &[u8]) -> bool
        ensures { result ≡ false → (re : Re) → Runs self.now re → find_str re hay.now 0 ≡ None }
    {
        match &self.endings {
            None => true,
            Some(endings) => {
                for index in 0..endings.len() {
                    if ends_with(hay, &endings[index]) {
                        return true;
                    }
                }
                false
            }
        }
    }

    /// No match starts before this.
    fn first_start(&self, hay: &[u8]) -> usize
        ensures value { (re : Re) → (runs : Runs self.now re) → find_str runs.own hay.now 0
            ≡ find_str runs.own hay.now result }
        ensures within { result ≤ length hay.now }
    {
        match self.longest {
            Some(longest) => hay.len().saturating_sub(longest),
            None => 0,
        }
    }

    /// No match starts after this.
    fn last_start(&self, hay: &[u8]) -> usize
        ensures value { result ≡ last_start self.now.at_start hay.now }
        ensures within { result ≤ length hay.now }
    {
        if self.at_start { 0 } else { hay.len() }
    }

    fn leftmost(
        &self,
        backtracker: &mut Backtracker,
        hay: &[u8],
        cells: &mut [usize],
    ) -> Result<Option<(usize, usize)>, Declined>
        ensures found { IfOk result (λ found. (re : Re) → Runs self.now re
            → found ≡ option_map span (find_str re hay.now 0)) }
        ensures cells { OnOk result ((re : Re) → Runs self.now re →
            IfSome (find_str re hay.now 0) (λ m. CellsAreOf m cells.new)) }
        ensures room { length cells.new ≡ length cells.old }
    {
        let last = self.last_start(hay);
        let mut at = self.first_start(hay);
        loop {
            let found = backtracker.find(&self.nfa, hay, at, last, hay.len(), cells)?;
            let Some((from, end)) = found else {
                return Ok(None);
            };
            if is_cut(hay, from) {
                return Ok(Some((from, end)));
            }
            at = from + 1;
        }
    }
}
