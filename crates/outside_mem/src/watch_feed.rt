ghost use Rattle.std.specs.Prelude.{◌≡◌, IfOk, find, nat_eq, option_map, slice_get, take};
ghost use Rattle.std.specs.Cmp.Lexicographic.{pointwise};
ghost use Rattle.outside.specs.WatchMarks.{file_in, found_in};
ghost use Rattle.outside_mem.specs.WatchFeed.{watch_script_of, out_of, IsUnusedWatchFeed};
ghost use Rattle.outside_mem.specs.WatchFeed.{GivesLook, GivesRead};

use crate::calls::Calls;
use dns_data::{Bytes, FileText, NoMemory, Text};
use outside::{FileSet, Look, ReadOut, WatchScript};
use std::alloc::Global;

// One more byte than a file of a configuration may have, so that a longer one is seen to be longer.
const MOST: usize = 1_048_577;

/// The script of a watch, and how far it is used up.
#[derive(Drop)]
pub(crate) struct WatchFeed {
    pub looks: Vec<FileSet>,
    /// How many looks went on, which is the index of the present set.
    pub passed: usize,
    pub read: Calls,
    pub note: Calls,
}

impl WatchFeed {
    pub fn new(script: WatchScript) -> WatchFeed
        ensures script { watch_script_of result ≡ script }
        ensures unused { IsUnusedWatchFeed result }
    {
        WatchFeed {
            looks: script.looks,
            passed: 0,
            read: Calls::new(script.fail_read),
            note: Calls::new(script.fail_note),
        }
    }

    /// Goes on to the next set, where there is one.
    pub fn look(&mut self) -> Look
        ensures { GivesLook self.old self.new result }
    {
        if self.passed < self.looks.len().saturating_sub(1) {
            self.passed += 1;
            return Look::Look;
        }
        Look::End
    }

    /// The file of this name in the present set, or a failure.
    pub fn read(&mut self, alloc: Global, name: &Text) -> ReadOut
        ensures { GivesRead self.old self.new name.now result }
    {
        if self.read.is_to_fail() {
            self.read.count();
            return ReadOut::Failed;
        }
        let Ok(bytes) = first_bytes(alloc, &self.looks, self.passed, name) else {
            return ReadOut::NoMemory;
        };
        self.read.count();
        match bytes {
            Some(bytes) => ReadOut::Got(bytes),
            None => ReadOut::Missing,
        }
    }
}

// What the set at an index has under a name, at most as many bytes as `MOST`.
fn first_bytes(
    alloc: Global,
    looks: &[FileSet],
    index: usize,
    name: &Text,
) -> Result<Option<Bytes>, NoMemory>
    ensures { IfOk result (λ bytes. found_in (slice_get looks.now index) name.now ≡ out_of bytes) }
{
    let Some(set) = looks.get(index) else {
        return Ok(None);
    };
    let Some(bytes) = file_in(set, name) else {
        return Ok(None);
    };
    let first = head(bytes.as_slice(), MOST);
    Ok(Some(Bytes::from_slice(alloc, first)?))
}

fn head(bytes: &[u8], most: usize) -> &[u8]
    ensures { result.now ≡ take most bytes.now }
{
    if bytes.len() <= most {
        bytes
    } else {
        &bytes[..most]
    }
}

// The bytes of the first file of this name, where it isn't missing.
fn file_in<'a>(set: &'a FileSet, name: &Text) -> Option<&'a Bytes>
    ensures { option_map (λ bytes. bytes.now) result ≡ file_in set.now name.now }
{
    match file_named(set.files.as_slice(), name) {
        Some(file) => file.bytes.as_ref(),
        None => None,
    }
}

fn file_named<'a>(files: &'a [FileText], name: &Text) -> Option<&'a FileText>
    ensures { option_map (λ file. file.now) result
        ≡ find (λ file. pointwise nat_eq file.name name.now) files.now }
{
    files.iter().find(|file| is_named(file, name))
}

fn is_named(file: &FileText, name: &Text) -> bool
    ensures { result ≡ pointwise nat_eq file.now.name name.now }
{
    file.name.as_str() == name.as_str()
}
