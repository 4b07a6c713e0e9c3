ghost use Rattle.std.specs.Prelude.{◌≡◌, ℕ, ◌<◌, List, [], ◌∷◌, ◌++◌, length, slice_get};
ghost use Rattle.std.specs.Prelude.{MatchOption, OnOk, OnErr, IfOk};

use crate::NoMemory;
use std::alloc::Global;
use std::marker::Model;

/// A value of which a copy can be made, where memory lasts.
pub trait Copies: Drop + Sized {
    fn copy(&self, alloc: Global) -> Result<Self, NoMemory>
        ensures { IfOk result (λ made. made ≡ self.now) };
}

/// A list of values, which contracts see as a list. Names, records, texts and marks all stand in
/// one.
#[derive(Debug, Drop)]
pub struct Seq<T> {
    items: Vec<T>,
}

impl<T> Model for Seq<T> {
    ghost Value = { List T };

    ghost view = { λ s. s.items.items };
}

impl<T> Seq<T> {
    pub fn new(alloc: Global) -> Seq<T>
        ensures { result ≡ [] }
    {
        Seq {
            items: Vec::new(alloc),
        }
    }

    /// An empty list with room for so many items.
    pub fn with_capacity(alloc: Global, items: usize) -> Result<Seq<T>, NoMemory>
        ensures { IfOk result (λ s. s ≡ []) }
    {
        Ok(Seq {
            items: Vec::with_capacity(alloc, items)?,
        })
    }

    /// The items of a `Vec`, which are moved and not copied.
    pub fn of(items: Vec<T>) -> Seq<T>
        ensures { result ≡ items.items }
    {
        Seq { items }
    }

    pub fn push(&mut self, item: T) -> Result<(), NoMemory>
    where
        T: Drop,
        ensures ok { OnOk result (self.new ≡ self.old ++ item ∷ []) }
        ensures err { OnErr result (self.new ≡ self.old) }
    {
        self.items.push(item)?;
        Ok(())
    }

    /// Takes the last item out.
    #[inline]
    pub fn pop(&mut self) -> Option<T>
        ensures { MatchOption result
            ((self.old ≡ []) × (self.new ≡ [])) (λ item. self.old ≡ self.new ++ item ∷ []) }
    {
        self.items.pop()
    }

    /// Drops all items, and keeps the room.
    pub fn clear(&mut self)
    where
        T: Drop,
        ensures { self.new ≡ [] }
    {
        self.items.clear();
    }

    pub fn len(&self) -> usize
        ensures { result ≡ length self.now }
    {
        self.items.len()
    }

    pub fn at(&self, index: usize) -> &T
        requires { index < length self.now }
        ensures { slice_get self.now index ≡ Some result.now }
    {
        &self.items[index]
    }

    pub fn as_slice(&self) -> &[T]
        ensures { result.now ≡ self.now }
    {
        &self.items
    }

    pub fn copy(&self, alloc: Global) -> Result<Seq<T>, NoMemory>
    where
        T: Copies,
        ensures { IfOk result (λ s. s ≡ self.now) }
    {
        let mut items = Vec::with_capacity(alloc, self.items.len())?;
        for item in self.items.as_slice() {
            items.push(item.copy(alloc)?)?;
        }
        Ok(Seq { items })
    }
}
