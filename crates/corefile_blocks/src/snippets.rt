ghost use Rattle.std.specs.Prelude.{◌≡◌, [], ◌∷◌, ◌++◌, option_map, IfOk, OnOk};
ghost use Rattle.corefile_blocks.specs.Blocks.{snippet_of};

use crate::places::{free_places, place_from};
use crate::shared::{Snippet, snippet_of};
use dns_data::{Copies, NoMemory, Seq};
use std::alloc::Global;
use std::marker::Model;

/// So many places are soon made, and enough that the names of a Corefile are seldom searched long.
const PLACES: usize = 256;

/// Snippets in order, found by their names. Where two have one name, the first counts.
#[derive(Debug, Drop)]
pub(crate) struct Snippets {
    items: Seq<Snippet>,
    // The same, each at the place of its name.
    places: Vec<Seq<Snippet>>,
}

impl Model for Snippets {
    ghost use Rattle.std.specs.Prelude.{List};
    ghost use Rattle.corefile_blocks.specs.declared.shared.Snippet.{Snippet};
    ghost use Rattle.corefile_blocks.specs.Snippets.{ArePlaced};

    ghost Value = { List Snippet };

    ghost view = { λ s. s.items };

    ghost invariant = { λ s. ArePlaced s.items s.places.items };
}

impl Snippets {
    pub fn new(alloc: Global) -> Result<Snippets, NoMemory>
        ensures { IfOk result (λ s. s ≡ []) }
    {
        Ok(Snippets {
            items: Seq::new(alloc),
            places: free_places(alloc, PLACES)?,
        })
    }

    /// The first of a name.
    pub fn find(&self, name: &[u8]) -> Option<&Snippet>
        ensures { option_map (λ snippet. snippet.now) result ≡ snippet_of name.now self.now }
    {
        snippet_of(self.places[place_from(PLACES, 0, name)].as_slice(), name)
    }

    /// Adds one behind the others.
    pub fn push(&mut self, alloc: Global, snippet: Snippet) -> Result<(), NoMemory>
        ensures { OnOk result (self.new ≡ self.old ++ snippet ∷ []) }
    {
        let same = Snippet {
            name: snippet.name.copy(alloc)?,
            lines: snippet.lines.share()?,
        };
        let place = place_from(PLACES, 0, snippet.name.as_slice());
        self.items.push(snippet)?;
        if let Err(NoMemory) = self.places[place].push(same) {
            let _ = self.items.pop();
            return Err(NoMemory);
        }
        Ok(())
    }
}
