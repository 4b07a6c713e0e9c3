//! Names that were read of a message behind many pointers, by their offsets.
ghost use Rattle.std.specs.Prelude.{◌≡◌, [], ◌∷◌, ◌++◌, OnOk, OnErr, IfSome};
ghost use Rattle.dns_wire.specs.Known.{IsAmong};

use dns_data::limit::POINTER_END;
use dns_data::{Name, NoMemory};
use std::alloc::Global;
use std::marker::Model;

/// Names by the offsets at which they stand. It takes no memory until one is added.
#[derive(Drop)]
pub struct KnownNames {
    // Which of the names may stand at an offset. Whether it does is looked up there.
    hints: Vec<u16>,
    names: Vec<(usize, Name)>,
}

impl Model for KnownNames {
    ghost use Rattle.std.specs.Prelude.{ℕ, List};

    ghost Value = { List (ℕ × List (List ℕ)) };

    ghost view = { λ k. k.names.items };
}

impl KnownNames {
    #[inline]
    pub fn new(alloc: Global) -> KnownNames
        ensures { result ≡ [] }
    {
        KnownNames {
            hints: Vec::new(alloc),
            names: Vec::new(alloc),
        }
    }

    /// The name at an offset, where it is among them.
    #[inline]
    pub fn find(&self, at: usize) -> Option<&Name>
        ensures { IfSome result (λ name. IsAmong self.now at name.now) }
    {
        if self.hints.len() <= at {
            return None;
        }
        let index = self.hints[at] as usize;
        if self.names.len() <= index {
            return None;
        }
        let (offset, name) = &self.names[index];
        if *offset != at {
            return None;
        }
        Some(name)
    }

    /// Adds the name at an offset of a message of so many bytes.
    pub fn add(&mut self, size: usize, at: usize, name: Name) -> Result<(), NoMemory>
        ensures ok { OnOk result (self.new ≡ self.old ++ (at, name) ∷ []) }
        ensures err { OnErr result (self.new ≡ self.old) }
    {
        if self.hints.is_empty() {
            self.hints.resize(size.min(POINTER_END), 0)?;
        }
        let index = self.names.len();
        self.names.push((at, name))?;
        if at < self.hints.len() && index < 65536 {
            self.hints[at] = index as u16;
        }
        Ok(())
    }
}
