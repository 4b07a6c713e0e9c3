use crate::{Bytes, Copies, NoMemory, Text};
use std::alloc::Global;

/// A file that a configuration names. `bytes` is None where the file is missing.
#[derive(Debug, Drop)]
pub struct FileText {
    pub name: Text,
    pub bytes: Option<Bytes>,
}

impl Copies for FileText {
    fn copy(&self, alloc: Global) -> Result<FileText, NoMemory> {
        Ok(FileText {
            name: self.name.copy(alloc)?,
            bytes: match &self.bytes {
                Some(bytes) => Some(bytes.copy(alloc)?),
                None => None,
            },
        })
    }
}
