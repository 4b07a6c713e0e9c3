ghost use Rattle.std.specs.Prelude.{◌≡◌, ◌<◌, ◌^◌, false, length, option_map, IfOk, IfSome};
ghost use Rattle.std.specs.Arc.{arc_value};
ghost use Rattle.std.specs.List.{list_any};
ghost use Rattle.plugin_api.specs.{fallthrough_of};
ghost use Rattle.file_plugin.specs.Reading.{ReadsFile, ReadsWords, has_zone};
ghost use Rattle.file_plugin.specs.Reading.{line_why, lines_fault, some_has};
ghost use Rattle.file_plugin.specs.declared.fault.FileFault.TheVariants as fault;
ghost use Rattle.plugin_api.specs.declared.fault.DirectiveFault.TheVariants as directive;

use crate::fault::FileFault;
use crate::loading::read_text;
use crate::plan::FilePlan;
use dns_data::{Bytes, Copies, Directive, Line, Name, Names, NoMemory, Text};
use plugin_api::{
    DirectiveFault, DirectiveWhy, fallthrough_of, fallthrough_why, once, words_behind,
};
use std::alloc::Global;
use std::sync::Arc;
use zone_words::read_zones;

impl FilePlan {
    /// Reads a directive of a block with these zones, behind the plans `before` of its block, or
    /// says what is wrong with it. `file` is what its file has, where that isn't missing.
    pub fn read(
        alloc: Global,
        directive: &Directive,
        zones: &Names,
        before: &[FilePlan],
        file: Option<&[u8]>,
    ) -> Result<FilePlan, FileFault>
        requires { IfSome file (λ text. length text.now < 2 ^ 32) }
        ensures { ReadsFile before.now directive.now zones.now
            (option_map (λ text. text.now) file.entry) result }
    {
        FilePlan::reread(alloc, &[], directive, zones, before, file)
    }

    /// The same where there are plans of another configuration. A zone that one of these has read
    /// from equal bytes is taken over, and not read again.
    #[tactic(auto, unfolding(crate::specs::Reading::file_fault))]
    pub fn reread(
        alloc: Global,
        last: &[&FilePlan],
        directive: &Directive,
        zones: &Names,
        before: &[FilePlan],
        file: Option<&[u8]>,
    ) -> Result<FilePlan, FileFault>
        requires { IfSome file (λ text. length text.now < 2 ^ 32) }
        ensures { ReadsFile before.now directive.now zones.now
            (option_map (λ text. text.now) file.entry) result }
    {
        let line = directive.line;
        let origins = match read_words(alloc, zones, directive.args.as_slice())? {
            Ok(origins) => origins,
            Err(why) => return Err(refused(line, why)),
        };
        if let Some(fault) = lines_fault(alloc, directive.body.as_slice())? {
            return Err(FileFault::Directive(fault));
        }
        if some_has(before, origins.as_slice()) {
            return Err(refused(line, DirectiveWhy::DoubleZone));
        }
        let Some(text) = file else {
            return Err(refused(line, DirectiveWhy::NoFile));
        };
        let fallthrough = read_fallthrough(alloc, directive.body.as_slice())?;
        let loaded = read_text(alloc, line, last, text, origins.as_slice(), &fallthrough)?;
        Ok(FilePlan {
            directive: directive.copy(alloc)?,
            default: zones.copy(alloc)?,
            text: Bytes::from_slice(alloc, text)?,
            loaded,
        })
    }
}

fn refused(line: u32, why: DirectiveWhy) -> FileFault
    ensures { result ≡ fault.Directive (directive.Why line why) }
{
    FileFault::Directive(DirectiveFault::Why { line, why })
}

// Whether a plan before has a zone of one of these origins.
fn some_has(before: &[FilePlan], origins: &[Name]) -> bool
    ensures { result ≡ some_has before.now origins.now }
{
    for origin in origins {
        if one_has(before, origin) {
            return true;
        }
    }
    false
}

fn one_has(before: &[FilePlan], origin: &Name) -> bool
    ensures { result ≡ list_any (has_zone origin.now) before.now }
{
    for plan in before {
        if plan.has_zone(origin) {
            return true;
        }
    }
    false
}

// The origins that the words of a directive name behind its file, or why they don't fit.
fn read_words(
    alloc: Global,
    zones: &Names,
    words: &[Text],
) -> Result<Result<Names, DirectiveWhy>, NoMemory>
    ensures { IfOk result (λ read. ReadsWords zones.now words.now read) }
{
    let Some((_, behind)) = words.split_first() else {
        return Ok(Err(DirectiveWhy::Args));
    };
    match read_zones(alloc, zones, behind)? {
        Some(origins) => Ok(Ok(origins)),
        None => Ok(Err(DirectiveWhy::Zone)),
    }
}

// The fault of the first line that doesn't fit: one with `fallthrough` may stand, once.
fn lines_fault(alloc: Global, lines: &[Line]) -> Result<Option<DirectiveFault>, NoMemory>
    ensures { IfOk result (λ fault. fault ≡ lines_fault false lines.now) }
{
    let mut seen = false;
    let mut rest = lines;
    while let Some((line, behind)) = rest.split_first() {
        if let Some(why) = line_why(alloc, seen, line.words.as_slice())? {
            return Ok(Some(DirectiveFault::Why {
                line: line.number,
                why,
            }));
        }
        seen = true;
        rest = behind;
    }
    Ok(None)
}

// Why a line doesn't fit, where `fallthrough` stood in one before or in none.
fn line_why(alloc: Global, seen: bool, words: &[Text]) -> Result<Option<DirectiveWhy>, NoMemory>
    ensures { IfOk result (λ why. why ≡ line_why seen words.now) }
{
    let Some(behind) = words_behind(words, b"fallthrough") else {
        return Ok(Some(DirectiveWhy::Option));
    };
    let why = fallthrough_why(alloc, behind)?;
    Ok(once(seen, why))
}

// The zones in which names go on, for all zones of a directive with these lines.
fn read_fallthrough(alloc: Global, lines: &[Line]) -> Result<Arc<Names>, NoMemory>
    ensures { IfOk result (λ zones. arc_value zones ≡ fallthrough_of lines.now) }
{
    Ok(Arc::new(alloc, fallthrough_of(alloc, lines)?)?)
}
