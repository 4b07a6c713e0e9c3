ghost use Rattle.std.specs.Prelude.{◌≡◌, ◌↔◌, IsTrue};
ghost use Rattle.hosts_plugin.specs.Listings.{inline_listings};

use dns_data::{Line, Text};

/// Whether lines have the same words, wherever they stand in the Corefile. Then they list the same.
pub(crate) fn same_words(mut a: &[Line], mut b: &[Line]) -> bool
    ensures { IsTrue result → inline_listings a.entry.now ≡ inline_listings b.entry.now }
{
    while let Some((first, others)) = a.split_first() {
        let Some((second, more)) = b.split_first() else {
            return false;
        };
        if !same_texts(first.words.as_slice(), second.words.as_slice()) {
            return false;
        }
        a = others;
        b = more;
    }
    b.len() == 0
}

fn same_texts(mut a: &[Text], mut b: &[Text]) -> bool
    ensures { IsTrue result ↔ (a.entry.now ≡ b.entry.now) }
{
    while let Some((first, others)) = a.split_first() {
        let Some((second, more)) = b.split_first() else {
            return false;
        };
        if !first.is(second.as_str()) {
            return false;
        }
        a = others;
        b = more;
    }
    b.len() == 0
}
