//! The upstreams that a file names.
ghost use Rattle.std.specs.Prelude.{◌≡◌, ◌++◌, ◌∷◌, [], ◌<◌, ◌≤◌, length, MatchOption, OnOk};
ghost use Rattle.corefile_words.specs.Lines.{before};
ghost use Rattle.upstream_words.specs.Upstreams.{is_blank, server_of, servers_in, words_in};

use crate::upstream::PORT;
use corefile_words::first_line;
use dns_data::{Addr, NoMemory, Seq};
use outside::Upstream;

/// Adds the upstreams that a file names.
#[tactic(auto, unfolding(crate::specs::Upstreams::servers_in))]
pub fn add_servers(upstreams: &mut Seq<Upstream>, text: &[u8]) -> Result<(), NoMemory>
    ensures { OnOk result (upstreams.new ≡ upstreams.old ++ servers_in text.now) }
{
    let mut rest = text;
    while 0 < rest.len() {
        let (line, others) = first_line(rest);
        add_server(upstreams, line)?;
        rest = others;
    }
    Ok(())
}

// Adds the upstream that a line names.
fn add_server(upstreams: &mut Seq<Upstream>, line: &[u8]) -> Result<(), NoMemory>
    ensures { OnOk result (upstreams.new ≡ upstreams.old ++ server_of (words_in line.now)) }
{
    let Some((first, rest)) = next_word(line) else {
        return Ok(());
    };
    let Some((second, rest)) = next_word(rest) else {
        return Ok(());
    };
    if next_word(rest).is_some() {
        return Ok(());
    }
    if first != b"nameserver".as_slice() {
        return Ok(());
    }
    match Addr::read(second) {
        Some(addr) => upstreams.push(Upstream { addr, port: PORT }),
        None => Ok(()),
    }
}

// The first word of a line, and the rest of the line.
fn next_word(line: &[u8]) -> Option<(&[u8], &[u8])>
    ensures words { MatchOption result (words_in line.now ≡ [])
        (λ cut. words_in line.now ≡ cut.0.now ∷ words_in cut.1.now) }
    ensures shorter { MatchOption result (words_in line.now ≡ [])
        (λ cut. length cut.1.now < length line.now) }
{
    let mut rest = line;
    while let Some((byte, others)) = rest.split_first() {
        if is_blank(*byte) {
            rest = others;
        } else {
            return Some(first_word(rest));
        }
    }
    None
}

// The word with which a line begins, and the rest of the line.
fn first_word(line: &[u8]) -> (&[u8], &[u8])
    requires { 0 < length (before is_blank line.now) }
    ensures words { words_in line.now ≡ result.0.now ∷ words_in result.1.now }
    ensures shorter { length result.1.now < length line.now }
{
    line.split_at(word_size(line))
}

// How many bytes stand before the first blank.
fn word_size(line: &[u8]) -> usize
    ensures value { result ≡ length (before is_blank line.now) }
    ensures inside { result ≤ length line.now }
{
    line.iter().position(|b| is_blank(*b)).unwrap_or(line.len())
}

// Whether a byte parts words.
fn is_blank(byte: u8) -> bool
    ensures { result ≡ is_blank byte }
{
    byte == b' ' || byte == b'\t'
}
