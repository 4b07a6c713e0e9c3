ghost use Rattle.std.specs.Prelude.{◌≡◌, ◌++◌, ◌==◌, IfOk, OnOk};
ghost use Rattle.std.specs.List.{list_any};
ghost use Rattle.acl_plugin.specs.Lines.{kinds_at, kinds_in};
ghost use Rattle.acl_plugin.specs.declared.part.Part.TheVariants as part;

use crate::part::{Part, part_behind};
use dns_data::{NoMemory, Seq, Text};
use std::alloc::Global;
use type_names::read_kind;

/// The types that words list.
pub(crate) fn kinds_in(alloc: Global, words: &[Text]) -> Result<Seq<u16>, NoMemory>
    ensures { IfOk result (λ kinds. kinds ≡ kinds_in part.Front words.now) }
{
    let mut kinds = Seq::new(alloc);
    let mut part = Part::Front;
    let mut rest = words;
    while let Some((word, behind)) = rest.split_first() {
        part = part_behind(part, word);
        add_kind(&mut kinds, part, word)?;
        rest = behind;
    }
    Ok(kinds)
}

// Adds the type that a word of this part lists.
fn add_kind(kinds: &mut Seq<u16>, part: Part, word: &Text) -> Result<(), NoMemory>
    ensures { OnOk result (kinds.new ≡ kinds.old ++ kinds_at part word.now) }
{
    if part == Part::Types {
        if let Some(kind) = read_kind(word.as_str().as_bytes()) {
            kinds.push(kind)?;
        }
    }
    Ok(())
}

/// Whether a type is among those listed.
pub(crate) fn has_kind(kinds: &[u16], kind: u16) -> bool
    ensures { result ≡ list_any (λ other. other == kind) kinds.now }
{
    for other in kinds {
        if *other == kind {
            return true;
        }
    }
    false
}
