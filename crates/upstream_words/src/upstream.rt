ghost use Rattle.std.specs.Prelude.{◌≡◌, ◌<◌, length, option_and_then, IfSome};
ghost use Rattle.dns_data.specs.{addr_of};
ghost use Rattle.upstream_words.specs.Upstreams.{behind_bracket, bracketed, if_family, is_four};
ghost use Rattle.upstream_words.specs.Upstreams.{place_of, placed_at, plain, port_of, upstream_in};
ghost use Rattle.upstream_words.specs.Upstreams.{upstream_of, with_port, without_scheme};

use dns_data::Addr;
use numbers::read_digits;
use outside::Upstream;

// The port of the DNS (RFC 1035, section 4.2).
pub(crate) const PORT: u16 = 53;

/// The upstream that a word names.
#[tactic(auto, unfolding(crate::specs::Upstreams::upstream_of))]
pub fn read_upstream(word: &[u8]) -> Option<Upstream>
    ensures { result ≡ upstream_of word.now }
{
    upstream_in(without_scheme(word))
}

// The text without `dns://` in front, where that stands there.
fn without_scheme(word: &[u8]) -> &[u8]
    ensures { result.now ≡ without_scheme word.now }
{
    if word.len() < 6 {
        return word;
    }
    if &word[..6] == b"dns://".as_slice() {
        return &word[6..];
    }
    word
}

fn upstream_in(text: &[u8]) -> Option<Upstream>
    ensures { result ≡ upstream_in text.now }
{
    let (byte, behind) = text.split_first()?;
    if *byte == b'[' {
        return bracketed(behind);
    }
    match Addr::read(text) {
        Some(addr) => Some(Upstream { addr, port: PORT }),
        None => with_port(text),
    }
}

// An address in brackets, and its port.
fn bracketed(text: &[u8]) -> Option<Upstream>
    ensures { result ≡ bracketed text.now (place_of 93 text.now) }
{
    let at = place_of(b']', text)?;
    behind_bracket(&text[..at], &text[at + 1..])
}

fn behind_bracket(addr: &[u8], behind: &[u8]) -> Option<Upstream>
    ensures { result ≡ behind_bracket addr.now behind.now }
{
    let (byte, port) = behind.split_first()?;
    if *byte == b':' {
        return placed_at(false, addr, port);
    }
    None
}

// An IPv4 address and its port.
fn with_port(text: &[u8]) -> Option<Upstream>
    ensures { result ≡ with_port text.now (place_of 58 text.now) }
{
    let at = place_of(b':', text)?;
    placed_at(true, &text[..at], &text[at + 1..])
}

fn placed_at(four: bool, addr: &[u8], port: &[u8]) -> Option<Upstream>
    ensures { result ≡ placed_at four addr.now port.now }
{
    let addr = address(four, addr)?;
    let port = read_port(port)?;
    Some(Upstream { addr, port })
}

fn address(four: bool, text: &[u8]) -> Option<Addr>
    ensures { result ≡ option_and_then (if_family four) (addr_of text.now) }
{
    let addr = Addr::read(text)?;
    if four == is_four(&addr) {
        return Some(addr);
    }
    None
}

fn is_four(addr: &Addr) -> bool
    ensures { result ≡ is_four addr.now }
{
    match addr {
        Addr::V4(_) => true,
        Addr::V6(_) => false,
    }
}

// The port that one to five digits spell.
fn read_port(text: &[u8]) -> Option<u16>
    ensures { result ≡ port_of text.now }
{
    let number = read_digits(text, 5)?;
    if 0 < number && number < 65_536 {
        return Some(number as u16);
    }
    None
}

// How many bytes stand before the first such byte.
fn place_of(mark: u8, text: &[u8]) -> Option<usize>
    ensures value { result ≡ place_of mark text.now }
    ensures inside { IfSome result (λ at. at < length text.now) }
{
    for at in 0..text.len() {
        if text[at] == mark {
            return Some(at);
        }
    }
    None
}
