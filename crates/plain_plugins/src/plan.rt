ghost use Rattle.std.specs.Prelude.{◌≡◌, IfOk, unwrap_or};
ghost use Rattle.zone_words.specs.{is_in, zones_or};
ghost use Rattle.plain_plugins.specs.Plain.{IsPlain, ReadsPlain, no_body_why, no_words_why};
ghost use Rattle.plain_plugins.specs.Plain.{plain_why, plain_zones, words_why, zones_why};
ghost use Rattle.plain_plugins.specs.Reload.{reload_times};

use crate::reload::{ReloadTimes, reload_times, reload_why};
use dns_data::{Copies, Directive, Line, Name, Names, NoMemory, Text};
use plugin_api::{DirectiveFault, DirectiveWhy, Rank};
use std::alloc::Global;
use std::marker::Model;
use zone_words::{is_in, read_zones};

/// A directive whose words are none, durations or zones, with what was made of them once. Contracts
/// see the directive, and the zones of its block.
#[derive(Debug, Drop)]
pub struct PlainPlan {
    directive: Directive,
    default: Names,
    zones: Names,
}

impl Model for PlainPlan {
    ghost use Rattle.std.specs.Prelude.{◌≡◌};
    ghost use Rattle.plugin_api.specs.{PlanData};
    ghost use Rattle.plain_plugins.specs.Plain.{plain_zones};

    ghost Value = { PlanData };

    ghost view = { λ p. record { directive = p.directive; zones = p.default } };

    ghost invariant = { λ p.
        p.zones ≡ plain_zones (record { directive = p.directive; zones = p.default }) };
}

impl PlainPlan {
    /// Reads a directive of this rank in a block with these zones, or says what is wrong with it.
    #[tactic(auto, unfolding(crate::specs::Plain::plain_fault))]
    pub fn read(
        alloc: Global,
        rank: Rank,
        directive: &Directive,
        zones: &Names,
    ) -> Result<PlainPlan, DirectiveFault>
        requires { IsPlain rank }
        ensures { ReadsPlain rank directive.now zones.now result }
    {
        if let Some(why) = plain_why(alloc, rank, zones, directive)? {
            return Err(DirectiveFault::Why {
                line: directive.line,
                why,
            });
        }
        Ok(PlainPlan {
            zones: plain_zones(alloc, zones, directive.args.as_slice())?,
            directive: directive.copy(alloc)?,
            default: zones.copy(alloc)?,
        })
    }

    /// Whether it stands for a name.
    pub fn covers(&self, name: &Name) -> bool
        ensures { result ≡ is_in name.now (plain_zones self.now) }
    {
        is_in(name, self.zones.as_slice())
    }

    /// The times of a `reload`.
    pub fn times(&self) -> ReloadTimes
        ensures { result ≡ reload_times self.now.directive.args }
    {
        reload_times(self.directive.args.as_slice())
    }
}

// The zones for which a directive of these words stands.
fn plain_zones(alloc: Global, zones: &Names, words: &[Text]) -> Result<Names, NoMemory>
    ensures { IfOk result (λ own. own ≡ unwrap_or (zones_or zones.now words.now) zones.now) }
{
    match read_zones(alloc, zones, words)? {
        Some(own) => Ok(own),
        None => zones.copy(alloc),
    }
}

// Why a directive doesn't fit.
fn plain_why(
    alloc: Global,
    rank: Rank,
    zones: &Names,
    directive: &Directive,
) -> Result<Option<DirectiveWhy>, NoMemory>
    requires { IsPlain rank }
    ensures { IfOk result (λ why. why ≡ plain_why rank zones.now directive.now) }
{
    if rank == Rank::Passive {
        return Ok(None);
    }
    if let Some(why) = words_why(alloc, rank, zones, directive.args.as_slice())? {
        return Ok(Some(why));
    }
    Ok(no_body_why(directive.body.as_slice()))
}

// Why the words of a directive don't fit.
fn words_why(
    alloc: Global,
    rank: Rank,
    zones: &Names,
    words: &[Text],
) -> Result<Option<DirectiveWhy>, NoMemory>
    ensures { IfOk result (λ why. why ≡ words_why rank zones.now words.now) }
{
    match rank {
        Rank::Reload => Ok(reload_why(words)),
        Rank::Log => zones_why(alloc, zones, words),
        _ => Ok(no_words_why(words)),
    }
}

fn zones_why(alloc: Global, zones: &Names, words: &[Text]) -> Result<Option<DirectiveWhy>, NoMemory>
    ensures { IfOk result (λ why. why ≡ zones_why zones.now words.now) }
{
    match read_zones(alloc, zones, words)? {
        Some(_) => Ok(None),
        None => Ok(Some(DirectiveWhy::Zone)),
    }
}

fn no_words_why(words: &[Text]) -> Option<DirectiveWhy>
    ensures { result ≡ no_words_why words.now }
{
    if words.is_empty() {
        return None;
    }
    Some(DirectiveWhy::Args)
}

fn no_body_why(lines: &[Line]) -> Option<DirectiveWhy>
    ensures { result ≡ no_body_why lines.now }
{
    if lines.is_empty() {
        return None;
    }
    Some(DirectiveWhy::Args)
}
