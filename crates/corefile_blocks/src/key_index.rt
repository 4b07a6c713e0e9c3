//! Keys at their places, so that each is held against few others.
ghost use Rattle.std.specs.Prelude.{◌≡◌, ◌<◌, ◌++◌, [], ◌∷◌, List, length, IfOk};
ghost use Rattle.std.specs.List.{list_any};
ghost use Rattle.dns_data.specs.declared.block.BlockKey.{BlockKey};
ghost use Rattle.corefile_blocks.specs.KeyIndex.{IsKeyIndexOf, key_place};
ghost use Rattle.corefile_blocks.specs.Keys.{same_key};

use crate::places::{free_places, place_from};
use dns_data::{BlockKey, Copies, NoMemory, Seq};
use std::alloc::Global;
use std::marker::Model;

/// Keys by their places.
#[derive(Debug, Drop)]
pub(crate) struct KeyIndex {
    places: Vec<Seq<BlockKey>>,
}

impl Model for KeyIndex {
    ghost use Rattle.std.specs.Prelude.{◌<◌, ◌≤◌, ◌^◌, List, length};
    ghost use Rattle.dns_data.specs.declared.block.BlockKey.{BlockKey};

    ghost Value = { List (List BlockKey) };

    ghost view = { λ x. x.places.items };

    ghost invariant = { λ x. (0 < length x.places.items) × (length x.places.items ≤ 2 ^ 32) };
}

impl KeyIndex {
    /// No keys. It is fastest with at most so many, and takes more.
    pub(crate) fn new(alloc: Global, keys: u32) -> Result<KeyIndex, NoMemory>
        ensures { IfOk result (λ index. IsKeyIndexOf index []) }
    {
        Ok(KeyIndex {
            places: free_places(alloc, keys as usize + 1)?,
        })
    }

    /// Whether a key of this zone and port is among those from which the index was made.
    pub(crate) fn has(&self, key: &BlockKey) -> bool
        ensures { (keys : List BlockKey) → IsKeyIndexOf self.now keys
            → result ≡ list_any (same_key key.now) keys }
    {
        stands_among(key, self.places[self.place_of(key)].as_slice())
    }

    /// Adds a key.
    pub(crate) fn with_key(self, alloc: Global, key: &BlockKey) -> Result<KeyIndex, NoMemory>
        ensures { IfOk result (λ index. (keys : List BlockKey) → IsKeyIndexOf self keys
            → IsKeyIndexOf index (keys ++ key.now ∷ [])) }
    {
        let place = self.place_of(key);
        let KeyIndex { mut places } = self;
        places[place].push(key.copy(alloc)?)?;
        Ok(KeyIndex { places })
    }

    // The place of a key.
    fn place_of(&self, key: &BlockKey) -> usize
        ensures place { result ≡ key_place (length self.now) key.now }
        ensures inside { result < length self.now }
    {
        let count = self.places.len();
        place_from(count, key.port as usize % count, key.zone.as_wire())
    }
}

// Whether a key of this zone and port is among others.
fn stands_among(key: &BlockKey, others: &[BlockKey]) -> bool
    ensures { result ≡ list_any (same_key key.now) others.now }
{
    for other in others {
        if same_key(key, other) {
            return true;
        }
    }
    false
}

fn same_key(a: &BlockKey, b: &BlockKey) -> bool
    ensures { result ≡ same_key a.now b.now }
{
    let same_port = a.port == b.port;
    same_port && a.zone.equals(&b.zone)
}
