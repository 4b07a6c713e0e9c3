ghost use Rattle.std.specs.Prelude.{◌≡◌, ◌++◌, IfOk, OnOk};
ghost use Rattle.std.specs.List.{filter};
ghost use Rattle.corefile_blocks.specs.WantedFiles.{AreKnown, add_once, each_once, files_of};
ghost use Rattle.corefile_blocks.specs.WantedFiles.{file_word, hosts_word, is_path};

use dns_data::{Copies, NoMemory, Seq, Text, Texts};
use std::alloc::Global;
use std::collections::BTreeSet;

/// Adds the files that a directive of this name with these words names.
#[tactic(auto, unfolding(crate::specs::WantedFiles::files_of))]
pub(crate) fn add_files(
    alloc: Global,
    named: &mut Texts,
    name: &str,
    args: &[Text],
) -> Result<(), NoMemory>
    ensures { OnOk result (named.new ≡ named.old ++ files_of name.now args.now) }
{
    if name == "file" {
        return match args.split_first() {
            Some((file, _)) => named.push(file.copy(alloc)?),
            None => Ok(()),
        };
    }
    if name == "hosts" {
        return named.push(Text::from_str(alloc, hosts_word(args))?);
    }
    if name == "forward" {
        return match args.split_first() {
            Some((_, upstreams)) => add_paths(alloc, named, upstreams),
            None => Ok(()),
        };
    }
    Ok(())
}

/// The file that the words of `hosts` name, or else /etc/hosts.
pub fn hosts_word(words: &[Text]) -> &str
    ensures { result.now ≡ hosts_word words.now }
{
    match words {
        [] => "/etc/hosts",
        [word, ..] => word.as_str(),
    }
}

/// The file that the words of `file` name; an empty text, where they name none.
pub fn file_word(words: &[Text]) -> &str
    ensures { result.now ≡ file_word words.now }
{
    match words {
        [] => "",
        [word, ..] => word.as_str(),
    }
}

// Adds those that are paths from the root on.
fn add_paths(alloc: Global, named: &mut Texts, upstreams: &[Text]) -> Result<(), NoMemory>
    ensures { OnOk result (named.new ≡ named.old ++ filter is_path upstreams.now) }
{
    let mut rest = upstreams;
    while let Some((upstream, behind)) = rest.split_first() {
        if is_path(upstream.as_str()) {
            named.push(upstream.copy(alloc)?)?;
        }
        rest = behind;
    }
    Ok(())
}

fn is_path(text: &str) -> bool
    ensures { result ≡ is_path text.now }
{
    match text.as_bytes().first() {
        Some(byte) => *byte == b'/',
        None => false,
    }
}

/// The names, each once, in the order in which they first stand.
#[tactic(auto, unfolding(crate::specs::WantedFiles::each_once))]
pub(crate) fn each_once(alloc: Global, names: &[Text]) -> Result<Texts, NoMemory>
    ensures { IfOk result (λ made. made ≡ each_once names.now) }
{
    let mut made = Seq::new(alloc);
    let mut known = BTreeSet::new(alloc);
    let mut rest = names;
    while let Some((name, behind)) = rest.split_first() {
        add_once(alloc, &mut made, &mut known, name)?;
        rest = behind;
    }
    Ok(made)
}

// Adds a name, unless it is there. The set has just the names of the list.
fn add_once(
    alloc: Global,
    made: &mut Texts,
    known: &mut BTreeSet<String>,
    name: &Text,
) -> Result<(), NoMemory>
    requires { AreKnown known.old made.old }
    ensures made { OnOk result (made.new ≡ add_once made.old name.now) }
    ensures known { OnOk result (AreKnown known.new made.new) }
{
    if !known.insert(String::from_str(alloc, name.as_str())?)? {
        return Ok(());
    }
    made.push(name.copy(alloc)?)?;
    Ok(())
}
