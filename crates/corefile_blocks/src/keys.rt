ghost use Rattle.std.specs.Prelude.{◌≡◌, ◌<◌, ◌≤◌, ◌+◌, ◌∷◌, ◌++◌, length, option_map, nat_le};
ghost use Rattle.std.specs.Prelude.{IfOk, IfSome, OnOk};
ghost use Rattle.corefile_blocks.specs.Keys.{add_key, add_keys, all_pieces, behind_scheme};
ghost use Rattle.corefile_blocks.specs.Keys.{header_keys, if_port, key_by, key_of, key_zone};
ghost use Rattle.corefile_blocks.specs.Keys.{or_no_key, pieces_of, port_at, port_of};
ghost use Rattle.corefile_blocks.specs.Keys.{scheme_at, unless_empty, zone_or};

use crate::BlockWhy;
use corefile_words::Word;
use dns_data::{BlockKey, BlockKeys, Name, NoMemory, Seq};
use std::alloc::Global;
use std::marker::Model;
use zone_words::{is_net_word, name_zone, net_zone};

/// The keys of a header up to the first piece that is none, and why that one is none.
#[derive(Debug, Drop)]
pub(crate) struct Header {
    pub keys: BlockKeys,
    pub fault: Option<BlockWhy>,
}

impl Model for Header {
    ghost use Rattle.corefile_blocks.specs.Keys.{HeaderData};

    ghost Value = { HeaderData };

    ghost view = { λ h. record { keys = h.keys; fault = h.fault } };
}

/// The keys of the words before a header's `{`.
#[tactic(auto, unfolding(crate::specs::Keys::header_keys))]
pub(crate) fn header_keys(
    alloc: Global,
    port: u16,
    line: u32,
    words: &[Word],
) -> Result<Header, NoMemory>
    ensures { IfOk result (λ header. header ≡ header_keys port line words.now) }
{
    let mut header = Header {
        keys: Seq::new(alloc),
        fault: None,
    };
    let mut rest = words;
    while let Some((word, behind)) = rest.split_first() {
        add_pieces(
            alloc,
            &mut header,
            port,
            line,
            word.text.as_str().as_bytes(),
        )?;
        rest = behind;
    }
    Ok(or_no_key(header))
}

// What was read, where there is a key, or a piece that is none.
fn or_no_key(mut header: Header) -> Header
    ensures { result ≡ or_no_key header.keys header.fault }
{
    if header.keys.len() == 0 && header.fault.is_none() {
        header.fault = Some(BlockWhy::NoKey);
    }
    header
}

// Adds the keys of a word, which has a comma between each two.
fn add_pieces(
    alloc: Global,
    header: &mut Header,
    port: u16,
    line: u32,
    text: &[u8],
) -> Result<(), NoMemory>
    ensures { OnOk result (header.new ≡ add_keys port line header.old (pieces_of text.now)) }
{
    let mut rest = text;
    while 0 < rest.len() {
        let (piece, behind) = first_piece(rest);
        if 0 < piece.len() {
            add_key(alloc, header, port, line, piece)?;
        }
        rest = behind;
    }
    Ok(())
}

// What stands before the first comma, and what stands behind it.
fn first_piece(text: &[u8]) -> (&[u8], &[u8])
    requires { 0 < length text.now }
    ensures pieces { pieces_of text.now
        ≡ unless_empty result.0.now ++ pieces_of result.1.now }
    ensures shorter { length result.1.now < length text.now }
{
    for (at, byte) in text.iter().enumerate() {
        if *byte == b',' {
            return (&text[..at], &text[at + 1..]);
        }
    }
    (text, &text[text.len()..])
}

// Adds the key of a piece, where all before were keys.
fn add_key(
    alloc: Global,
    header: &mut Header,
    port: u16,
    line: u32,
    piece: &[u8],
) -> Result<(), NoMemory>
    ensures { OnOk result (header.new ≡ add_key port line header.old piece.now) }
{
    if header.fault.is_some() {
        return Ok(());
    }
    match read_key(alloc, port, line, piece)? {
        Ok(key) => header.keys.push(key)?,
        Err(why) => header.fault = Some(why),
    }
    Ok(())
}

// The key that a piece spells, or why it is none.
#[tactic(auto, unfolding(crate::specs::Keys::key_of))]
fn read_key(
    alloc: Global,
    port: u16,
    line: u32,
    text: &[u8],
) -> Result<Result<BlockKey, BlockWhy>, NoMemory>
    ensures { IfOk result (λ key. key ≡ key_of port line text.now) }
{
    let Some(text) = behind_scheme(text) else {
        return Ok(Err(BlockWhy::Scheme));
    };
    let Some(at) = port_at(text) else {
        return keyed(port, line, read_zone(alloc, text)?);
    };
    let Some(port) = read_port(&text[at + 1..]) else {
        return Ok(Err(BlockWhy::Port));
    };
    keyed(port, line, read_zone(alloc, &text[..at])?)
}

fn keyed(
    port: u16,
    line: u32,
    zone: Result<Name, BlockWhy>,
) -> Result<Result<BlockKey, BlockWhy>, NoMemory>
    ensures { IfOk result (λ key. key ≡ key_by line (Some port) zone) }
{
    match zone {
        Ok(zone) => Ok(Ok(BlockKey { zone, port, line })),
        Err(why) => Ok(Err(why)),
    }
}

// A key without its scheme, of which `dns` is the only one.
fn behind_scheme(text: &[u8]) -> Option<&[u8]>
    ensures { option_map (λ rest. rest.now) result
        ≡ behind_scheme text.now (scheme_at text.now) }
{
    let Some(at) = scheme_at(text) else {
        return Some(text);
    };
    if &text[..at] == b"dns".as_slice() {
        return Some(&text[at + 3..]);
    }
    None
}

// How many bytes stand before the first `://`.
fn scheme_at(text: &[u8]) -> Option<usize>
    ensures value { result ≡ scheme_at text.now }
    ensures inside { IfSome result (λ at. at + 3 ≤ length text.now) }
{
    for at in 0..text.len() {
        if text[at..].starts_with(b"://") {
            return Some(at);
        }
    }
    None
}

// How many bytes stand before the last colon, unless a `/` stands behind that.
fn port_at(text: &[u8]) -> Option<usize>
    ensures value { result ≡ port_at text.now }
    ensures inside { IfSome result (λ at. at < length text.now) }
{
    let mut found = None;
    for (at, byte) in text.iter().enumerate() {
        if *byte == b':' {
            found = Some(at);
        } else if *byte == b'/' {
            found = None;
        }
    }
    found
}

// The port that one to five digits spell.
#[tactic(auto, unfolding(crate::specs::Keys::port_of))]
fn read_port(text: &[u8]) -> Option<u16>
    ensures { result ≡ port_of text.now }
{
    if text.len() < 1 || 5 < text.len() {
        return None;
    }
    let mut number: u32 = 0;
    for byte in text {
        if !byte.is_ascii_digit() {
            return None;
        }
        number = 10 * number + u32::from(*byte - b'0');
    }
    if number < 1 || 65535 < number {
        return None;
    }
    Some(number as u16)
}

// The zone of a key without scheme and port, or why it has none.
#[tactic(auto, unfolding(crate::specs::Keys::key_zone))]
fn read_zone(alloc: Global, text: &[u8]) -> Result<Result<Name, BlockWhy>, NoMemory>
    ensures { IfOk result (λ zone. zone ≡ key_zone text.now) }
{
    if is_net_word(text) {
        return zone_or(net_zone(alloc, text)?, BlockWhy::Cidr);
    }
    zone_or(name_zone(alloc, text)?, BlockWhy::Zone)
}

// The zone, or why the text has none.
fn zone_or(zone: Option<Name>, why: BlockWhy) -> Result<Result<Name, BlockWhy>, NoMemory>
    ensures { IfOk result (λ read. read ≡ zone_or why zone) }
{
    match zone {
        Some(zone) => Ok(Ok(zone)),
        None => Ok(Err(why)),
    }
}
