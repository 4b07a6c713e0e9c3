ghost use Rattle.std.specs.Prelude.{◌≡◌};
ghost use Rattle.zone_words.specs.{is_in};
ghost use Rattle.cache_rules.specs.Reading.{ReadsCache, cache_zones};
ghost use Rattle.cache_rules.specs.Settings.{settings_of};

use crate::reading::{lines_fault, ttl_why, zones_behind};
use crate::settings::Settings;
use dns_data::{Copies, Directive, Name, Names};
use plugin_api::{DirectiveFault, DirectiveWhy};
use std::alloc::Global;
use std::marker::Model;
use zone_words::is_in;

/// A directive `cache`, with what was made of its words once. Contracts see the directive, and the
/// zones of its block.
#[derive(Debug, Drop)]
pub struct CachePlan {
    directive: Directive,
    default: Names,
    zones: Names,
    settings: Settings,
}

impl Model for CachePlan {
    ghost use Rattle.std.specs.Prelude.{◌≡◌};
    ghost use Rattle.plugin_api.specs.{PlanData};
    ghost use Rattle.cache_rules.specs.Reading.{cache_zones};
    ghost use Rattle.cache_rules.specs.Settings.{settings_of};

    ghost Value = { PlanData };

    ghost view = { λ p. record { directive = p.directive; zones = p.default } };

    ghost invariant = { λ p.
        (p.zones ≡ cache_zones (record { directive = p.directive; zones = p.default }))
        × (p.settings ≡ settings_of p.directive) };
}

impl CachePlan {
    /// Reads a directive of a block with these zones, or says what is wrong with it.
    #[tactic(auto, unfolding(crate::specs::Reading::cache_fault))]
    pub fn read(
        alloc: Global,
        directive: &Directive,
        zones: &Names,
    ) -> Result<CachePlan, DirectiveFault>
        ensures { ReadsCache directive.now zones.now result }
    {
        if let Some(why) = ttl_why(directive.args.as_slice()) {
            return Err(DirectiveFault::Why {
                line: directive.line,
                why,
            });
        }
        let Some(own) = zones_behind(alloc, zones, directive.args.as_slice())? else {
            return Err(DirectiveFault::Why {
                line: directive.line,
                why: DirectiveWhy::Zone,
            });
        };
        if let Some(fault) = lines_fault(directive.body.as_slice()) {
            return Err(fault);
        }
        Ok(CachePlan {
            settings: Settings::of(directive),
            directive: directive.copy(alloc)?,
            default: zones.copy(alloc)?,
            zones: own,
        })
    }

    /// Whether it stands for a name.
    pub fn covers(&self, name: &Name) -> bool
        ensures { result ≡ is_in name.now (cache_zones self.now) }
    {
        is_in(name, self.zones.as_slice())
    }

    /// What it says of answers.
    pub fn settings(&self) -> &Settings
        ensures { result.now ≡ settings_of self.now.directive }
    {
        &self.settings
    }
}
