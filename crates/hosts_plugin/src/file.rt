ghost use Rattle.std.specs.Prelude.{◌≡◌, ◌++◌, OnOk};
ghost use Rattle.hosts_plugin.specs.Listings.{file_listings, line_listings, named, words_in};

use crate::listing::{Listing, add_name};
use crate::words::{next_word, uncommented};
use corefile_words::first_line;
use dns_data::{Addr, NoMemory, Seq};
use std::alloc::Global;

/// Adds what a hosts file lists.
#[tactic(auto, unfolding(crate::specs::Listings::file_listings))]
pub(crate) fn add_file(
    alloc: Global,
    listings: &mut Seq<Listing>,
    text: &[u8],
) -> Result<(), NoMemory>
    ensures { OnOk result (listings.new ≡ listings.old ++ file_listings text.now) }
{
    let mut rest = text;
    while 0 < rest.len() {
        let (line, behind) = first_line(rest);
        add_line(alloc, listings, line)?;
        rest = behind;
    }
    Ok(())
}

// Adds what a line lists.
fn add_line(alloc: Global, listings: &mut Seq<Listing>, line: &[u8]) -> Result<(), NoMemory>
    ensures { OnOk result (listings.new ≡ listings.old ++ line_listings line.now) }
{
    let Some((word, behind)) = next_word(uncommented(line)) else {
        return Ok(());
    };
    let Some(addr) = Addr::read(word) else {
        return Ok(());
    };
    add_names(alloc, listings, &addr, behind)
}

// Adds an address with each word that is a name.
fn add_names(
    alloc: Global,
    listings: &mut Seq<Listing>,
    addr: &Addr,
    words: &[u8],
) -> Result<(), NoMemory>
    ensures { OnOk result (listings.new ≡ listings.old ++ named addr.now (words_in words.now)) }
{
    let mut rest = words;
    while let Some((word, behind)) = next_word(rest) {
        add_name(alloc, listings, addr, word)?;
        rest = behind;
    }
    Ok(())
}
