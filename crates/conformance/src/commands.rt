//! The words of the command line: `cli WORD..`.

use crate::case::Case;
use case_fields::{CaseFault, put_bytes, put_number, put_word, read_text};
use command_line::{Command, Serve, read_command};
use dns_data::{Seq, Texts};
use std::alloc::Global;

/// `serve` with the file, the port, the workers and the queries, `load` with the queries, or
/// `usage`.
pub fn command(alloc: Global, case: &Case<'_>, out: &mut String) -> Result<(), CaseFault> {
    let words = read_texts(alloc, case.fields())?;
    match read_command(words.as_slice()) {
        Some(Command::Serve(serve)) => put_serve(alloc, out, &serve),
        Some(Command::Load(number)) => put_load(out, number),
        None => put_word(out, "usage"),
    }
}

fn put_load(out: &mut String, number: u64) -> Result<(), CaseFault> {
    put_word(out, "load ")?;
    put_number(out, number)
}

fn put_serve(alloc: Global, out: &mut String, serve: &Serve<'_>) -> Result<(), CaseFault> {
    put_word(out, "serve ")?;
    put_bytes(alloc, out, serve.conf.as_bytes())?;
    for number in [u64::from(serve.port), serve.workers, serve.most] {
        put_word(out, " ")?;
        put_number(out, number)?;
    }
    Ok(())
}

// The texts of fields with spaces between them.
fn read_texts(alloc: Global, fields: &str) -> Result<Texts, CaseFault> {
    let mut texts = Seq::new(alloc);
    for field in fields.split(' ') {
        texts.push(read_text(alloc, field)?)?;
    }
    Ok(texts)
}
