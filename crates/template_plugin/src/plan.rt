ghost use Rattle.std.specs.Prelude.{◌≡◌, [], length, unwrap_or, IfOk};
ghost use Rattle.pattern_judging.specs.{maker_behind};
ghost use Rattle.template_plugin.specs.Judging.{AreOf, ReadsTemplate};
ghost use Rattle.template_plugin.specs.Template.{applies, fits_kind};
ghost use Rattle.template_plugin.specs.Words.{kind_of, patterns_of, zones_in};

use crate::compile::{all_sections, sections_of};
use crate::lines::read_lines;
use crate::options::{Earlier, Seen};
use crate::reading::words_why;
use crate::record_parts::Sections;
use crate::words::rcode_of;
use dns_data::{Copies, Directive, Names, NoMemory, Query, Seq, Text, kind};
use outside::PatternMaker;
use plugin_api::{DirectiveFault, fallthrough_of};
use shared_patterns::SharedPattern;
use std::alloc::Global;
use std::marker::Model;
use type_names::read_kind;
use zone_words::{is_in, read_zones};

/// A directive `template`, with what was made of its words once. Contracts see the directive, and
/// the zones of its block.
#[derive(Drop)]
pub struct TemplatePlan {
    directive: Directive,
    default: Names,
    kind: u16,
    pub(crate) zones: Names,
    pub(crate) fallthrough: Names,
    pub(crate) rcode: u8,
    pub(crate) patterns: Seq<SharedPattern>,
    /// The texts, for each pattern.
    pub(crate) sections: Seq<Sections>,
    /// The texts of a template without patterns.
    pub(crate) whole: Sections,
}

impl Model for TemplatePlan {
    ghost use Rattle.plugin_api.specs.{PlanData};
    ghost use Rattle.template_plugin.specs.Made.{IsMade};

    ghost Value = { PlanData };

    ghost view = { λ p. record { directive = p.directive; zones = p.default } };

    ghost invariant = { λ p. IsMade
        (record { directive = p.directive; zones = p.default })
        (record {
          kind = p.kind;
          zones = p.zones;
          fallthrough = p.fallthrough;
          rcode = p.rcode;
          patterns = p.patterns;
          sections = p.sections;
          whole = p.whole;
        }) };
}

impl TemplatePlan {
    /// Reads a directive of a block with these zones, behind so many patterns of the configuration,
    /// or says what is wrong with it.
    pub fn read<M: PatternMaker>(
        alloc: Global,
        directive: &Directive,
        zones: &Names,
        patterns: usize,
        maker: &mut M,
    ) -> Result<TemplatePlan, DirectiveFault>
        ensures value { ReadsTemplate patterns
            (record { directive = directive.now; zones = zones.now })
            (M.last maker.new) result }
        ensures maker { M.state maker.new ≡ maker_behind result (M.state maker.old) }
    {
        TemplatePlan::reread(alloc, &[], directive, zones, patterns, maker)
    }

    /// The same where patterns are there that were made before. One of these is shared for its
    /// text, and not made again.
    #[tactic(auto, unfolding(crate::specs::Reading::template_fault))]
    pub fn reread<M: PatternMaker>(
        alloc: Global,
        there: &[&SharedPattern],
        directive: &Directive,
        zones: &Names,
        patterns: usize,
        maker: &mut M,
    ) -> Result<TemplatePlan, DirectiveFault>
        ensures value { ReadsTemplate patterns
            (record { directive = directive.now; zones = zones.now })
            (M.last maker.new) result }
        ensures maker { M.state maker.new ≡ maker_behind result (M.state maker.old) }
    {
        if let Some(why) = words_why(alloc, zones, directive.args.as_slice())? {
            return Err(DirectiveFault::Why {
                line: directive.line,
                why,
            });
        }
        let before = Earlier {
            seen: Seen {
                rcode: false,
                fallthrough: false,
            },
            patterns,
        };
        let mut made = Seq::new(alloc);
        read_lines(
            alloc,
            there,
            before,
            directive.body.as_slice(),
            maker,
            &mut made,
        )?;
        Ok(TemplatePlan::make(alloc, directive, zones, made)?)
    }

    // The plan of a directive that has no fault.
    fn make(
        alloc: Global,
        directive: &Directive,
        zones: &Names,
        patterns: Seq<SharedPattern>,
    ) -> Result<TemplatePlan, NoMemory>
        requires patterns { AreOf (patterns_of directive.now.body) patterns }
        ensures { IfOk result (λ plan. plan
            ≡ record { directive = directive.now; zones = zones.now }) }
    {
        let lines = directive.body.as_slice();
        let args = directive.args.as_slice();
        Ok(TemplatePlan {
            kind: kind_of(args),
            zones: zones_of(alloc, zones, args)?,
            fallthrough: fallthrough_of(alloc, lines)?,
            rcode: rcode_of(lines),
            sections: all_sections(alloc, patterns.as_slice(), lines)?,
            whole: sections_of(alloc, None, lines)?,
            patterns,
            directive: directive.copy(alloc)?,
            default: zones.copy(alloc)?,
        })
    }

    /// Its patterns, in the order of the text.
    pub fn patterns(&self) -> &[SharedPattern]
        ensures { AreOf (patterns_of self.now.directive.body) result.now }
    {
        self.patterns.as_slice()
    }

    /// How many patterns it has.
    pub fn pattern_count(&self) -> usize
        ensures { result ≡ length (patterns_of self.now.directive.body) }
    {
        self.patterns.len()
    }

    /// Whether it is for a query.
    pub(crate) fn applies(&self, query: &Query) -> bool
        ensures { result ≡ applies self.now query.now }
    {
        fits_kind(self.kind, query.kind) && is_in(&query.name, self.zones.as_slice())
    }
}

// Whether a type is that of the template.
fn fits_kind(own: u16, kind: u16) -> bool
    ensures { result ≡ fits_kind own kind }
{
    own == kind || own == kind::ANY
}

// The type that stands behind the class.
fn kind_of(args: &[Text]) -> u16
    ensures { result ≡ kind_of args.now }
{
    if args.len() < 2 {
        return kind::ANY;
    }
    read_kind(args[1].as_str().as_bytes()).unwrap_or(kind::ANY)
}

// The zones that stand behind class and type, or else those of the block.
fn zones_of(alloc: Global, zones: &Names, args: &[Text]) -> Result<Names, NoMemory>
    ensures { IfOk result (λ own. own ≡ unwrap_or (zones_in zones.now args.now) []) }
{
    if args.len() < 2 {
        return zones.copy(alloc);
    }
    match read_zones(alloc, zones, &args[2..])? {
        Some(own) => Ok(own),
        None => Ok(Seq::new(alloc)),
    }
}
