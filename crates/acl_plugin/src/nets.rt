ghost use Rattle.std.specs.Prelude.{◌≡◌, ◌++◌, IfOk, OnOk};
ghost use Rattle.std.specs.List.{list_any};
ghost use Rattle.dns_data.specs.{agree};
ghost use Rattle.acl_plugin.specs.Lines.{nets_at, nets_in};
ghost use Rattle.acl_plugin.specs.declared.part.Part.TheVariants as part;

use crate::part::{Part, part_behind};
use dns_data::{Addr, Net, NoMemory, Seq, Text};
use std::alloc::Global;

/// The nets that words list.
pub(crate) fn nets_in(alloc: Global, words: &[Text]) -> Result<Seq<Net>, NoMemory>
    ensures { IfOk result (λ nets. nets ≡ nets_in part.Front words.now) }
{
    let mut nets = Seq::new(alloc);
    let mut part = Part::Front;
    let mut rest = words;
    while let Some((word, behind)) = rest.split_first() {
        part = part_behind(part, word);
        add_net(&mut nets, part, word)?;
        rest = behind;
    }
    Ok(nets)
}

// Adds the net that a word of this part lists.
fn add_net(nets: &mut Seq<Net>, part: Part, word: &Text) -> Result<(), NoMemory>
    ensures { OnOk result (nets.new ≡ nets.old ++ nets_at part word.now) }
{
    if part == Part::Nets {
        if let Some(net) = Net::read(word.as_str().as_bytes()) {
            nets.push(net)?;
        }
    }
    Ok(())
}

/// Whether an address is in one of the nets listed.
pub(crate) fn has_net(nets: &[Net], addr: &Addr) -> bool
    ensures { result ≡ list_any (λ net. agree net.bits net.addr addr.now) nets.now }
{
    for net in nets {
        if net.holds(addr) {
            return true;
        }
    }
    false
}
