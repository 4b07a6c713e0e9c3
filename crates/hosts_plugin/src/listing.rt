ghost use Rattle.std.specs.Prelude.{◌≡◌, ◌++◌, IfOk, OnOk};
ghost use Rattle.std.specs.Str.{is_utf8};
ghost use Rattle.hosts_plugin.specs.Listings.{inline_listings, listed, listings_of, name_in, named};

use dns_data::{Addr, Line, Name, NameFault, NoMemory, Seq, Text};
use std::alloc::Global;

/// An address with one of its names.
#[derive(Debug, Drop)]
pub struct Listing {
    pub addr: Addr,
    pub name: Name,
}

/// The name that a word spells, in small letters.
#[tactic(auto, unfolding(crate::specs::Listings::name_in))]
pub(crate) fn read_name(alloc: Global, word: &[u8]) -> Result<Option<Name>, NoMemory>
    ensures { IfOk result (λ name. name ≡ name_in word.now) }
{
    if !is_text(word) {
        return Ok(None);
    }
    match Name::read(alloc, word, &Name::root(alloc)) {
        Ok(mut name) => {
            name.make_lower();
            Ok(Some(name))
        }
        Err(NameFault::Bad) => Ok(None),
        Err(NameFault::NoMemory) => Err(NoMemory),
    }
}

// Whether bytes are UTF-8.
fn is_text(word: &[u8]) -> bool
    ensures { result ≡ is_utf8 word.now }
{
    match std::str::from_utf8(word) {
        Ok(_) => true,
        Err(_) => false,
    }
}

/// Adds an address with the name that a word spells, if any.
pub(crate) fn add_name(
    alloc: Global,
    listings: &mut Seq<Listing>,
    addr: &Addr,
    word: &[u8],
) -> Result<(), NoMemory>
    ensures { OnOk result (listings.new ≡ listings.old ++ listed addr.now (name_in word.now)) }
{
    let Some(name) = read_name(alloc, word)? else {
        return Ok(());
    };
    listings.push(Listing { addr: *addr, name })
}

/// Adds what the lines of a directive list.
pub(crate) fn add_inline(
    alloc: Global,
    listings: &mut Seq<Listing>,
    lines: &[Line],
) -> Result<(), NoMemory>
    ensures { OnOk result (listings.new ≡ listings.old ++ inline_listings lines.now) }
{
    let mut rest = lines;
    while let Some((line, behind)) = rest.split_first() {
        add_words(alloc, listings, line.words.as_slice())?;
        rest = behind;
    }
    Ok(())
}

// Adds what the words of a line list.
fn add_words(alloc: Global, listings: &mut Seq<Listing>, words: &[Text]) -> Result<(), NoMemory>
    ensures { OnOk result (listings.new ≡ listings.old ++ listings_of words.now) }
{
    let Some((word, behind)) = words.split_first() else {
        return Ok(());
    };
    let Some(addr) = Addr::read(word.as_str().as_bytes()) else {
        return Ok(());
    };
    add_names(alloc, listings, &addr, behind)
}

// Adds an address with each word that is a name.
fn add_names(
    alloc: Global,
    listings: &mut Seq<Listing>,
    addr: &Addr,
    words: &[Text],
) -> Result<(), NoMemory>
    ensures { OnOk result (listings.new ≡ listings.old ++ named addr.now words.now) }
{
    let mut rest = words;
    while let Some((word, behind)) = rest.split_first() {
        add_name(alloc, listings, addr, word.as_str().as_bytes())?;
        rest = behind;
    }
    Ok(())
}
