ghost use Rattle.std.specs.Prelude.{◌≡◌, None, Some, true, map, IfOk, OnOk};
ghost use Rattle.plugin_api.specs.{rank_of};
ghost use Rattle.plugin_api.specs.declared.ranks.Rank.TheVariants as rank;
ghost use Rattle.plain_plugins.specs.{IsPlain};
ghost use Rattle.chain_meaning.specs.{brought_of};
ghost use Rattle.chain_meaning.specs.Accepting.{directive_task, stands_in};
ghost use Rattle.std.specs.List.{All};
ghost use Rattle.corefile_blocks.specs.Readable.{HasShortBytes};
ghost use Rattle.chain_meaning.specs.Steps.{file_plans};
ghost use Rattle.chain_build.specs.Places.{AreTaken, ReadsBlock, ReadsMore};
ghost use Rattle.chain_build.specs.Places.{behind_at, context_at};
ghost use Rattle.chain_build.specs.Places.{no_places, placed_by, placed_plain};
ghost use Rattle.chain_build.specs.Reading.{CountsOn, IsFixed, ReadsAs, ReadsExtra, ReadsRank};
ghost use Rattle.chain_build.specs.Reading.{Refuses};
ghost use Rattle.chain_build.specs.Reading.{check_behind};
ghost use Rattle.chain_build.specs.declared.fault.CheckFault.TheVariants as fault;
ghost use Rattle.chain_meaning.specs.declared.refusal.Refusal.TheVariants as refusal;

use crate::earlier::{Earlier, Sources};
use crate::fault::CheckFault;
use crate::judges::Judges;
use acl_plugin::AclPlan;
use cache_rules::CachePlan;
use chain_meaning::Refusal;
use corefile_blocks::{file_of, file_word, hosts_word};
use dns_data::{
    Block, BlockKey, Copies, Directive, Directives, FileText, Names, NoMemory, Seq, Text,
};
use dns64_plugin::Dns64Plan;
use file_plugin::{FileFault, FilePlan};
use forward_plugin::ForwardPlan;
use hosts_plugin::HostsPlan;
use outside::PatternMaker;
use plain_plugins::PlainPlan;
use plugin_api::{DirectiveFault, DirectiveWhy, Rank, rank};
use rewrite_plugin::RewritePlan;
use std::alloc::Global;
use template_plugin::TemplatePlan;

/// What was read of a block's directives, each rank in a place of its own.
#[derive(Drop)]
pub struct Places {
    pub errors: bool,
    pub logs: Seq<PlainPlan>,
    pub dns64: Option<Dns64Plan>,
    pub acls: Seq<AclPlan>,
    pub any: bool,
    /// The directives of extras.
    pub extras: Directives,
    /// The first directive `cache`, which stands once.
    pub cache: Option<CachePlan>,
    pub rewrites: Seq<RewritePlan>,
    pub templates: Seq<TemplatePlan>,
    pub hosts: Seq<HostsPlan>,
    pub files: Seq<FilePlan>,
    pub forwards: Seq<ForwardPlan>,
    pub whoami: bool,
    /// How many patterns of the configuration stand behind these directives.
    pub patterns: usize,
}

/// A directive, and what it is read in: the zones of its block's keys, the files of the bundle, the
/// directives of the block that stand before it, and what was read before of another bundle.
#[derive(Clone, Copy)]
pub(crate) struct Reading<'a> {
    pub zones: &'a Names,
    pub files: &'a [FileText],
    pub before: &'a [Directive],
    pub directive: &'a Directive,
    pub earlier: &'a Earlier<'a>,
}

impl Places {
    // Nothing was read, behind so many patterns.
    fn new(alloc: Global, patterns: usize) -> Places
        ensures { result ≡ no_places patterns }
    {
        Places {
            errors: false,
            logs: Seq::new(alloc),
            dns64: None,
            acls: Seq::new(alloc),
            any: false,
            extras: Seq::new(alloc),
            cache: None,
            rewrites: Seq::new(alloc),
            templates: Seq::new(alloc),
            hosts: Seq::new(alloc),
            files: Seq::new(alloc),
            forwards: Seq::new(alloc),
            whoami: false,
            patterns,
        }
    }
}

/// Reads the directives of a block in a bundle with these files, behind so many patterns.
pub(crate) fn read_block<J: Judges, M: PatternMaker>(
    alloc: Global,
    judges: &J,
    patterns: usize,
    sources: &Sources<'_>,
    block: &Block,
    maker: &mut M,
) -> Result<Places, CheckFault>
    requires { All HasShortBytes sources.now.files.now }
    ensures reads { ReadsBlock (brought_of (J.named judges.now) (J.taken judges.now)) patterns
        sources.now.files.now block.now (M.last maker.new) result }
    ensures maker { M.state maker.new ≡ check_behind result (M.state maker.old) }
{
    let zones = key_zones(alloc, block.keys.as_slice())?;
    let all = block.directives.as_slice();
    let mut places = Places::new(alloc, patterns);
    for (index, directive) in all.iter().enumerate() {
        let reading = Reading {
            zones: &zones,
            files: sources.files,
            before: &all[..index],
            directive,
            earlier: sources.earlier,
        };
        read_more(alloc, judges, &reading, maker, &mut places)?;
    }
    Ok(places)
}

// The zones of keys.
fn key_zones(alloc: Global, keys: &[BlockKey]) -> Result<Names, NoMemory>
    ensures { IfOk result (λ zones. zones ≡ map (λ key. key.zone) keys.now) }
{
    let mut zones = Seq::with_capacity(alloc, keys.len())?;
    let mut rest = keys;
    while let Some((key, behind)) = rest.split_first() {
        zones.push(key.zone.copy(alloc)?)?;
        rest = behind;
    }
    Ok(zones)
}

// Reads one more directive.
fn read_more<J: Judges, M: PatternMaker>(
    alloc: Global,
    judges: &J,
    reading: &Reading<'_>,
    maker: &mut M,
    places: &mut Places,
) -> Result<(), CheckFault>
    requires short { All HasShortBytes reading.now.files.now }
    requires plans { places.old.files ≡ file_plans (context_at reading.now) reading.now.before.now }
    ensures reads { ReadsMore
        (directive_task (brought_of (J.named judges.now) (J.taken judges.now))
        (behind_at reading.now places.old) reading.now.directive.now)
        (places.new ≡ placed_by (rank_of reading.now.directive.now.name) (context_at reading.now)
        reading.now.directive.now places.old)
        (M.last maker.new) result }
    ensures taken { OnOk result
        (AreTaken (J.taken judges.now) places.old.extras
        → AreTaken (J.taken judges.now) places.new.extras) }
    ensures maker { M.state maker.new ≡ check_behind result (M.state maker.old) }
{
    let directive = reading.directive;
    let Some(rank) = rank(&directive.name) else {
        return read_extra(alloc, judges, directive, places);
    };
    if rank.is_once() && stands_in(reading.before, &directive.name) {
        return Err(CheckFault::Refused(Refusal::Directive {
            line: directive.line,
            why: DirectiveWhy::Twice,
        }));
    }
    match rank {
        Rank::Rewrite => read_rewrite(alloc, reading, maker, places),
        Rank::Template => read_template(alloc, reading, maker, places),
        _ => read_as(alloc, rank, reading, places),
    }
}

// Reads the directive of an extra, which the judges take or refuse.
fn read_extra<J: Judges>(
    alloc: Global,
    judges: &J,
    directive: &Directive,
    places: &mut Places,
) -> Result<(), CheckFault>
    ensures { ReadsExtra (brought_of (J.named judges.now) (J.taken judges.now)) directive.now
        places.old places.new result }
{
    match judges.judge(directive) {
        Some(true) => {
            places.extras.push(directive.copy(alloc)?)?;
            Ok(())
        }
        Some(false) => Err(CheckFault::Refused(Refusal::Directive {
            line: directive.line,
            why: DirectiveWhy::Extra,
        })),
        None => Err(unknown(directive)),
    }
}

// Reads a directive `rewrite`. Neither zones nor files matter to it, nor what stands before.
fn read_rewrite<M: PatternMaker>(
    alloc: Global,
    reading: &Reading<'_>,
    maker: &mut M,
    places: &mut Places,
) -> Result<(), CheckFault>
    ensures reads { ReadsRank rank.Rewrite (behind_at reading.now places.old)
        reading.now.directive.now (M.last maker.new) result }
    ensures placed { OnOk result (places.new ≡ placed_by (Some rank.Rewrite)
        (context_at reading.now) reading.now.directive.now places.old) }
    ensures maker { M.state maker.new ≡ check_behind result (M.state maker.old) }
{
    let there = reading.earlier.patterns.as_slice();
    match RewritePlan::reread(alloc, there, reading.directive, places.patterns, maker) {
        Ok(plan) => {
            let count = plan.pattern_count();
            places.rewrites.push(plan)?;
            add_patterns(count, places)
        }
        Err(fault) => Err(refused(fault)),
    }
}

// Reads a directive `template`. No file matters to it, nor what stands before.
fn read_template<M: PatternMaker>(
    alloc: Global,
    reading: &Reading<'_>,
    maker: &mut M,
    places: &mut Places,
) -> Result<(), CheckFault>
    ensures reads { ReadsRank rank.Template (behind_at reading.now places.old)
        reading.now.directive.now (M.last maker.new) result }
    ensures placed { OnOk result (places.new ≡ placed_by (Some rank.Template)
        (context_at reading.now) reading.now.directive.now places.old) }
    ensures maker { M.state maker.new ≡ check_behind result (M.state maker.old) }
{
    let zones = reading.zones;
    let there = reading.earlier.patterns.as_slice();
    match TemplatePlan::reread(
        alloc,
        there,
        reading.directive,
        zones,
        places.patterns,
        maker,
    ) {
        Ok(plan) => {
            let count = plan.pattern_count();
            places.templates.push(plan)?;
            add_patterns(count, places)
        }
        Err(fault) => Err(refused(fault)),
    }
}

// So many more patterns are read. More than can be counted have no room, and are never read.
fn add_patterns(count: usize, places: &mut Places) -> Result<(), CheckFault>
    ensures { CountsOn count places.old places.new result }
{
    let Some(patterns) = places.patterns.checked_add(count) else {
        return Err(CheckFault::NoMemory);
    };
    places.patterns = patterns;
    Ok(())
}

fn refused(fault: DirectiveFault) -> CheckFault
    ensures { Refuses fault result }
{
    match fault {
        DirectiveFault::Why { line, why } => CheckFault::Refused(Refusal::Directive { line, why }),
        DirectiveFault::TooMany { what, number } => {
            CheckFault::Refused(Refusal::TooMany { what, number })
        }
        DirectiveFault::NoMemory => CheckFault::NoMemory,
    }
}

fn unknown(directive: &Directive) -> CheckFault
    ensures { result ≡ fault.Refused (refusal.Unknown directive.now.line) }
{
    CheckFault::Refused(Refusal::Unknown {
        line: directive.line,
    })
}

// Whether one of these directives has the name.
fn stands_in(before: &[Directive], name: &Text) -> bool
    ensures { result ≡ stands_in before.now name.now }
{
    for directive in before {
        if directive.name.as_str().as_bytes() == name.as_str().as_bytes() {
            return true;
        }
    }
    false
}

// Reads a directive of this rank, which has no patterns. How many stand before it is no matter.
fn read_as(
    alloc: Global,
    rank: Rank,
    reading: &Reading<'_>,
    places: &mut Places,
) -> Result<(), CheckFault>
    requires fixed { IsFixed rank }
    requires short { All HasShortBytes reading.now.files.now }
    requires plans { places.old.files ≡ file_plans (context_at reading.now) reading.now.before.now }
    ensures { ReadsAs rank (behind_at reading.now places.old) reading.now.directive.now places.old
        places.new result }
{
    match rank {
        Rank::Cache => read_cache(alloc, reading, places),
        Rank::File => read_file(alloc, reading, places),
        Rank::Hosts => read_hosts(alloc, reading, places),
        Rank::Forward => read_forward(alloc, reading, places),
        Rank::Acl => match AclPlan::read(alloc, reading.directive, reading.zones) {
            Ok(plan) => {
                places.acls.push(plan)?;
                Ok(())
            }
            Err(fault) => Err(refused(fault)),
        },
        Rank::Passive | Rank::Reload | Rank::Errors | Rank::Log | Rank::Any | Rank::Whoami =>
            match PlainPlan::read(alloc, rank, reading.directive, reading.zones) {
                Ok(plan) => {
                    place(rank, plan, places)?;
                    Ok(())
                }
                Err(fault) => Err(refused(fault)),
            },
        Rank::Dns64 => read_dns64(alloc, reading, places),
        Rank::Extra => Err(unknown(reading.directive)),
        Rank::Rewrite | Rank::Template => unreachable!(),
    }
}

// Reads a directive `dns64`. Nothing but its own words matters to it. The first of a block counts;
// another one is refused before.
fn read_dns64(alloc: Global, reading: &Reading<'_>, places: &mut Places) -> Result<(), CheckFault>
    ensures { ReadsAs rank.Dns64 (behind_at reading.now places.old) reading.now.directive.now
        places.old places.new result }
{
    match Dns64Plan::read(alloc, reading.directive) {
        Ok(plan) => {
            if places.dns64.is_none() {
                places.dns64 = Some(plan);
            }
            Ok(())
        }
        Err(fault) => Err(refused(fault)),
    }
}

// Reads a directive `cache`. Neither files nor what stands before it is any matter.
fn read_cache(alloc: Global, reading: &Reading<'_>, places: &mut Places) -> Result<(), CheckFault>
    ensures { ReadsAs rank.Cache (behind_at reading.now places.old) reading.now.directive.now
        places.old places.new result }
{
    match CachePlan::read(alloc, reading.directive, reading.zones) {
        Ok(plan) => {
            if places.cache.is_none() {
                places.cache = Some(plan);
            }
            Ok(())
        }
        Err(fault) => Err(refused(fault)),
    }
}

// Reads a directive `hosts`. What stands before it is no matter.
fn read_hosts(alloc: Global, reading: &Reading<'_>, places: &mut Places) -> Result<(), CheckFault>
    requires { All HasShortBytes reading.now.files.now }
    ensures { ReadsAs rank.Hosts (behind_at reading.now places.old) reading.now.directive.now
        places.old places.new result }
{
    let directive = reading.directive;
    let file = file_of(reading.files, hosts_word(directive.args.as_slice()));
    let last = reading.earlier.hosts.as_slice();
    match HostsPlan::reread(alloc, last, directive, reading.zones, file) {
        Ok(plan) => {
            places.hosts.push(plan)?;
            Ok(())
        }
        Err(fault) => Err(refused(fault)),
    }
}

// Reads a directive `forward`. Neither zones nor what stands before it is any matter.
fn read_forward(alloc: Global, reading: &Reading<'_>, places: &mut Places) -> Result<(), CheckFault>
    ensures { ReadsAs rank.Forward (behind_at reading.now places.old) reading.now.directive.now
        places.old places.new result }
{
    match ForwardPlan::read(alloc, reading.directive, reading.files) {
        Ok(plan) => {
            places.forwards.push(plan)?;
            Ok(())
        }
        Err(fault) => Err(refused(fault)),
    }
}

// Reads a directive `file`.
fn read_file(alloc: Global, reading: &Reading<'_>, places: &mut Places) -> Result<(), CheckFault>
    requires short { All HasShortBytes reading.now.files.now }
    requires plans { places.old.files ≡ file_plans (context_at reading.now) reading.now.before.now }
    ensures { ReadsAs rank.File (behind_at reading.now places.old) reading.now.directive.now
        places.old places.new result }
{
    let directive = reading.directive;
    let file = file_of(reading.files, file_word(directive.args.as_slice()));
    match FilePlan::reread(
        alloc,
        reading.earlier.files.as_slice(),
        directive,
        reading.zones,
        places.files.as_slice(),
        file,
    ) {
        Ok(plan) => {
            places.files.push(plan)?;
            Ok(())
        }
        Err(FileFault::Directive(fault)) => Err(refused(fault)),
        Err(FileFault::Zone { line, at, why }) => {
            Err(CheckFault::Refused(Refusal::Zone { line, at, why }))
        }
    }
}

// Puts a plan of this rank in its place.
fn place(rank: Rank, plan: PlainPlan, places: &mut Places) -> Result<(), NoMemory>
    requires { IsPlain rank }
    ensures { OnOk result (places.new ≡ placed_plain (Some rank) plan places.old) }
{
    match rank {
        Rank::Errors => places.errors = true,
        Rank::Log => places.logs.push(plan)?,
        Rank::Any => places.any = true,
        Rank::Whoami => places.whoami = true,
        _ => {}
    }
    Ok(())
}
