//! What a bundle is refused for: `check CONF PORT ENV FILES`, and `behind` with the same fields.

ghost use Rattle.std.specs.Prelude.{IfOk};
ghost use Rattle.corefile_blocks.specs.{IsReadable};

use crate::case::Case;
use crate::corefile::read_environment;
use case_fields::{CaseFault, put_bytes, put_word, read_bytes, read_text};
use chain_build::{CheckFault, Plans, check as check_bundle, recheck};
use chain_meaning::Refusal;
use corefile_blocks::Bundle;
use dns_data::{Bytes, FileText, FileTexts};
use outside::RegexMaker;
use sinkhole_plugin::{Sinkhole, SinkholeBook};
use std::alloc::Global;

// So many accepted cases of `behind` are kept.
const KEPT: usize = 48;

/// What accepted cases serve by: the last one of `check`, and the first ones of `behind`.
#[derive(Drop)]
pub struct Accepted {
    pub last: Option<Plans<SinkholeBook>>,
    pub kept: Vec<Plans<SinkholeBook>>,
}

impl Accepted {
    pub fn none(alloc: Global) -> Accepted {
        Accepted {
            last: None,
            kept: Vec::new(alloc),
        }
    }
}

/// `ok`, or `refused` and the line that an operator sees, where the program brings `sinkhole`; or
/// `differs` where what is read behind the last accepted case comes to something else.
pub fn check(
    alloc: Global,
    case: &Case<'_>,
    accepted: &mut Accepted,
    out: &mut String,
) -> Result<(), CaseFault> {
    let checked = check_anew(alloc, case)?;
    let fresh = outcome(alloc, &checked)?;
    if let Some(last) = &accepted.last {
        if !is_alike(alloc, case, last, fresh.as_str())? {
            return put_word(out, "differs");
        }
    }
    if let Ok(plans) = checked {
        accepted.last = Some(plans);
    }
    put_word(out, fresh.as_str())
}

/// As `check`, behind each of the first cases of this call that were accepted, itself among them.
pub fn check_behind(
    alloc: Global,
    case: &Case<'_>,
    accepted: &mut Accepted,
    out: &mut String,
) -> Result<(), CaseFault> {
    let checked = check_anew(alloc, case)?;
    let fresh = outcome(alloc, &checked)?;
    if let Ok(plans) = checked {
        if accepted.kept.len() < KEPT {
            accepted.kept.push(plans)?;
        }
    }
    for last in &accepted.kept {
        if !is_alike(alloc, case, last, fresh.as_str())? {
            return put_word(out, "differs");
        }
    }
    put_word(out, fresh.as_str())
}

// Whether a case comes to the same behind another configuration.
fn is_alike(
    alloc: Global,
    case: &Case<'_>,
    last: &Plans<SinkholeBook>,
    fresh: &str,
) -> Result<bool, CaseFault> {
    let rechecked = check_again(alloc, case, last)?;
    let again = outcome(alloc, &rechecked)?;
    Ok(fresh == again.as_str())
}

// What a case serves by, or its refusal.
#[tactic(auto, using(sinkhole_plugin::specs::SinkholeLaws::sinkholes_obey))]
fn check_anew(alloc: Global, case: &Case<'_>) -> Result<Checked, CaseFault> {
    let (bundle, port) = read_readable(alloc, case)?;
    let judges = [Sinkhole::new()];
    let mut maker = RegexMaker::new();
    Ok(check_bundle(alloc, bundle, port, &judges, &mut maker))
}

// The same behind another configuration.
#[tactic(auto, using(sinkhole_plugin::specs::SinkholeLaws::sinkholes_obey))]
fn check_again(
    alloc: Global,
    case: &Case<'_>,
    last: &Plans<SinkholeBook>,
) -> Result<Checked, CaseFault> {
    let (bundle, port) = read_readable(alloc, case)?;
    let judges = [Sinkhole::new()];
    let mut maker = RegexMaker::new();
    Ok(recheck(alloc, last, bundle, port, &judges, &mut maker))
}

type Checked = Result<Plans<SinkholeBook>, CheckFault>;

// What an operator sees of it.
fn outcome(alloc: Global, checked: &Checked) -> Result<String, CaseFault> {
    let mut text = String::new(alloc);
    match checked {
        Ok(_) => put_word(&mut text, "ok")?,
        Err(CheckFault::Refused(refusal)) => put_refusal(alloc, &mut text, refusal)?,
        Err(CheckFault::NoMemory) => return Err(CaseFault::NoMemory),
    }
    Ok(text)
}

// The bundle of a case, whose lines can be counted.
fn read_readable(alloc: Global, case: &Case<'_>) -> Result<(Bundle, u16), CaseFault>
    ensures { IfOk result (λ read. IsReadable read.0) }
{
    let (bundle, port) = read_bundle(alloc, case)?;
    if !bundle.is_readable() {
        return Err(CaseFault::Bad);
    }
    Ok((bundle, port))
}

fn put_refusal(alloc: Global, out: &mut String, refusal: &Refusal) -> Result<(), CaseFault> {
    let line = format!(in alloc; "{refusal}")?;
    put_word(out, "refused ")?;
    put_bytes(alloc, out, line.as_str().as_bytes())
}

/// The bundle of a case, and the port of keys that name none.
pub fn read_bundle(alloc: Global, case: &Case<'_>) -> Result<(Bundle, u16), CaseFault> {
    let (conf, port, environment, files) = case.four_arguments()?;
    let Ok(port) = port.parse::<u16>() else {
        return Err(CaseFault::Bad);
    };
    let conf = Bytes::of(read_bytes(alloc, conf)?);
    let env = read_environment(alloc, environment)?;
    let files = read_files(alloc, files)?;
    Ok((Bundle { conf, env, files }, port))
}

// The files of a field: `NAME:BYTES` with commas between them, or `-`.
fn read_files(alloc: Global, field: &str) -> Result<FileTexts, CaseFault> {
    let mut files = FileTexts::new(alloc);
    if field == "-" {
        return Ok(files);
    }
    for file in field.split(',') {
        files.push(read_file(alloc, file)?)?;
    }
    Ok(files)
}

fn read_file(alloc: Global, field: &str) -> Result<FileText, CaseFault> {
    let Some((name, bytes)) = field.split_once(':') else {
        return Err(CaseFault::Bad);
    };
    let name = read_text(alloc, name)?;
    let bytes = Some(Bytes::of(read_bytes(alloc, bytes)?));
    Ok(FileText { name, bytes })
}
