ghost use Rattle.std.specs.Prelude.{◌≡◌, ◌↔◌, ◌<◌, ◌^◌, length, IsTrue, IsFalse};
ghost use Rattle.std.specs.List.{All};
ghost use Rattle.corefile_blocks.specs.Readable.{HasShortBytes, IsReadable};

use corefile_words::{Pair, Pairs};
use dns_data::{Bytes, FileText, FileTexts};

/// All that a configuration is made of: the Corefile, the environment, and the files that it names.
#[derive(Debug, Drop)]
pub struct Bundle {
    pub conf: Bytes,
    /// The variables. Where two have one name, the first counts.
    pub env: Pairs,
    /// Where two have one name, the first counts.
    pub files: FileTexts,
}

impl Bundle {
    /// Whether the lines of each of its texts can be counted in 32 bits, which reading asks for.
    pub fn is_readable(&self) -> bool
        ensures yes { IsTrue result → IsReadable self.now }
        ensures no { IsFalse result → IsReadable self.now → ⊥ }
    {
        is_short(self.conf.as_slice()) && are_short(self.files.as_slice())
    }

    /// Whether two bundles are equal byte for byte: the Corefile, the variables in their order, and
    /// the files in theirs, the missing ones among them.
    pub fn equals(&self, other: &Bundle) -> bool
        ensures { IsTrue result ↔ (self.now ≡ other.now) }
    {
        self.conf.is(other.conf.as_slice())
            && same_pairs(self.env.as_slice(), other.env.as_slice())
            && same_files(self.files.as_slice(), other.files.as_slice())
    }
}

fn are_short(files: &[FileText]) -> bool
    ensures yes { IsTrue result → All HasShortBytes files.now }
    ensures no { IsFalse result → All HasShortBytes files.now → ⊥ }
{
    for file in files {
        if !has_short_bytes(file) {
            return false;
        }
    }
    true
}

fn has_short_bytes(file: &FileText) -> bool
    ensures { IsTrue result ↔ HasShortBytes file.now }
{
    match &file.bytes {
        Some(bytes) => is_short(bytes.as_slice()),
        None => true,
    }
}

fn is_short(bytes: &[u8]) -> bool
    ensures { IsTrue result ↔ length bytes.now < 2 ^ 32 }
{
    bytes.len() <= u32::MAX as usize
}

fn same_pairs(mut a: &[Pair], mut b: &[Pair]) -> bool
    ensures { IsTrue result ↔ (a.entry.now ≡ b.entry.now) }
{
    while let Some((first, others)) = a.split_first() {
        let Some((second, more)) = b.split_first() else {
            return false;
        };
        if !first.name.is(second.name.as_str()) {
            return false;
        }
        if !first.value.is(second.value.as_str()) {
            return false;
        }
        a = others;
        b = more;
    }
    b.len() == 0
}

fn same_files(mut a: &[FileText], mut b: &[FileText]) -> bool
    ensures { IsTrue result ↔ (a.entry.now ≡ b.entry.now) }
{
    while let Some((first, others)) = a.split_first() {
        let Some((second, more)) = b.split_first() else {
            return false;
        };
        if !first.name.is(second.name.as_str()) {
            return false;
        }
        if !same_bytes(&first.bytes, &second.bytes) {
            return false;
        }
        a = others;
        b = more;
    }
    b.len() == 0
}

fn same_bytes(a: &Option<Bytes>, b: &Option<Bytes>) -> bool
    ensures { IsTrue result ↔ (a.now ≡ b.now) }
{
    match (a, b) {
        (Some(a), Some(b)) => a.is(b.as_slice()),
        (None, None) => true,
        _ => false,
    }
}
