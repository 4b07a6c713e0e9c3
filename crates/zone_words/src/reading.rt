ghost use Rattle.std.specs.Prelude.{◌≡◌, IfOk};
ghost use Rattle.zone_words.specs.Zones.{has_byte, name_zone, net_zone, word_zone, zones_or};

use dns_data::{Addr, Copies, Name, NameFault, Names, Net, NoMemory, Seq, Text};
use std::alloc::Global;

/// The zones that words name, or the default ones where there is no word; None where a word names
/// no zone.
pub fn read_zones(alloc: Global, default: &Names, words: &[Text]) -> Result<Option<Names>, NoMemory>
    ensures { IfOk result (λ zones. zones ≡ zones_or default.now words.now) }
{
    if words.len() == 0 {
        return Ok(Some(default.copy(alloc)?));
    }
    let mut zones = Seq::new(alloc);
    let mut rest = words;
    while let Some((word, behind)) = rest.split_first() {
        let Some(zone) = read_zone(alloc, word.as_str().as_bytes())? else {
            return Ok(None);
        };
        zones.push(zone)?;
        rest = behind;
    }
    Ok(Some(zones))
}

/// The zone that a word names: that of a net where it has a `/`, else the one of its name in small
/// letters. The empty word names the root.
#[tactic(auto, unfolding(crate::specs::Zones::word_zone))]
pub fn read_zone(alloc: Global, word: &[u8]) -> Result<Option<Name>, NoMemory>
    ensures { IfOk result (λ zone. zone ≡ word_zone word.now) }
{
    if is_net_word(word) {
        return net_zone(alloc, word);
    }
    name_zone(alloc, word)
}

/// Whether a word is read as a net: it has a `/`.
pub fn is_net_word(word: &[u8]) -> bool
    ensures { result ≡ has_byte 47 word.now }
{
    for other in word {
        if *other == b'/' {
            return true;
        }
    }
    false
}

/// The zone of a name in text form, in small letters. The empty text names the root.
pub fn name_zone(alloc: Global, text: &[u8]) -> Result<Option<Name>, NoMemory>
    ensures { IfOk result (λ zone. zone ≡ name_zone text.now) }
{
    if text.len() == 0 {
        return Ok(Some(Name::root(alloc)));
    }
    match Name::read(alloc, text, &Name::root(alloc)) {
        Ok(mut zone) => {
            zone.make_lower();
            Ok(Some(zone))
        }
        Err(NameFault::Bad) => Ok(None),
        Err(NameFault::NoMemory) => Err(NoMemory),
    }
}

/// The zone of the names of a net's addresses (RFC 1035, section 3.5; RFC 3596, section 2.5), where
/// the text is a net whose bits are whole octets (IPv4) or whole nibbles (IPv6).
pub fn net_zone(alloc: Global, text: &[u8]) -> Result<Option<Name>, NoMemory>
    ensures { IfOk result (λ zone. zone ≡ net_zone text.now) }
{
    let Some(net) = Net::read(text) else {
        return Ok(None);
    };
    let bits = usize::from(net.bits);
    match net.addr {
        Addr::V4(_) => {
            if bits % 8 != 0 || 32 < bits {
                return Ok(None);
            }
            let name = Name::reverse(alloc, &net.addr)?;
            Ok(Some(name.suffix(alloc, 4 - bits / 8)?))
        }
        Addr::V6(_) => {
            if bits % 4 != 0 || 128 < bits {
                return Ok(None);
            }
            let name = Name::reverse(alloc, &net.addr)?;
            Ok(Some(name.suffix(alloc, 32 - bits / 4)?))
        }
    }
}
