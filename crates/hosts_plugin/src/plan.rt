ghost use Rattle.std.specs.Prelude.{◌≡◌, Some, IfOk, IfSome};
ghost use Rattle.std.specs.Arc.{arc_value};
ghost use Rattle.std.specs.Option.{option_map};
ghost use Rattle.hosts_plugin.specs.Hosts.{listings_in, plan_listings, plan_zones};
ghost use Rattle.hosts_plugin.specs.Made.{IsTable};
ghost use Rattle.hosts_plugin.specs.Reading.{ReadsHosts, data_of};

use crate::options::{has_no_reverse, ttl_of};
use crate::reading::{lines_fault, zones_behind};
use crate::same::same_words;
use crate::table::{HostsTable, table_of};
use dns_data::{Bytes, Copies, Directive, Line, Names, NoMemory, are_equal};
use plugin_api::{DirectiveFault, DirectiveWhy, fallthrough_of};
use std::alloc::Global;
use std::marker::Model;
use std::sync::Arc;

/// A directive `hosts`, with what was made of its words and its file once. Contracts see the
/// directive, the zones of its block, and the bytes of its file.
#[derive(Debug, Drop)]
pub struct HostsPlan {
    directive: Directive,
    default: Names,
    text: Bytes,
    zones: Names,
    pub(crate) fallthrough: Names,
    pub(crate) ttl: u32,
    pub(crate) no_reverse: bool,
    /// It may be that of an earlier plan too.
    table: Arc<HostsTable>,
}

impl Model for HostsPlan {
    ghost use Rattle.std.specs.Arc.{arc_value};
    ghost use Rattle.hosts_plugin.specs.Hosts.{HostsData};
    ghost use Rattle.hosts_plugin.specs.Made.{IsMade};

    ghost Value = { HostsData };

    ghost view = { λ p. record { directive = p.directive; zones = p.default; text = p.text } };

    ghost invariant = { λ p. IsMade
        (record { directive = p.directive; zones = p.default; text = p.text })
        (record {
          zones = p.zones;
          fallthrough = p.fallthrough;
          ttl = p.ttl;
          no_reverse = p.no_reverse;
          table = arc_value p.table;
        }) };
}

impl HostsPlan {
    /// Reads a directive of a block with these zones, or says what is wrong with it. `file` is what
    /// its file has; one that is missing counts as empty.
    pub fn read(
        alloc: Global,
        directive: &Directive,
        zones: &Names,
        file: Option<&[u8]>,
    ) -> Result<HostsPlan, DirectiveFault>
        ensures { ReadsHosts directive.now zones.now (option_map (λ text. text.now) file.entry)
            result }
    {
        HostsPlan::reread(alloc, &[], directive, zones, file)
    }

    /// The same behind other plans. What one of them has made of an equal file and equal lines is
    /// taken over, and not made anew.
    #[tactic(auto, unfolding(crate::specs::Reading::hosts_fault))]
    pub fn reread(
        alloc: Global,
        last: &[&HostsPlan],
        directive: &Directive,
        zones: &Names,
        file: Option<&[u8]>,
    ) -> Result<HostsPlan, DirectiveFault>
        ensures { ReadsHosts directive.now zones.now (option_map (λ text. text.now) file.entry)
            result }
    {
        let Some(own) = zones_behind(alloc, zones, directive.args.as_slice())? else {
            return Err(DirectiveFault::Why {
                line: directive.line,
                why: DirectiveWhy::Zone,
            });
        };
        if let Some(fault) = lines_fault(alloc, directive.body.as_slice())? {
            return Err(fault);
        }
        let text = file.unwrap_or(&[]);
        Ok(HostsPlan::make(alloc, last, directive, zones, text, own)?)
    }

    // The plan of a directive that has no fault.
    fn make(
        alloc: Global,
        last: &[&HostsPlan],
        directive: &Directive,
        zones: &Names,
        text: &[u8],
        own: Names,
    ) -> Result<HostsPlan, NoMemory>
        requires { own ≡ plan_zones (data_of directive.now zones.now (Some text.now)) }
        ensures { IfOk result (λ plan. plan ≡ data_of directive.now zones.now (Some text.now)) }
    {
        let lines = directive.body.as_slice();
        let ttl = ttl_of(lines);
        Ok(HostsPlan {
            fallthrough: fallthrough_of(alloc, lines)?,
            ttl,
            no_reverse: has_no_reverse(lines),
            table: table_in(alloc, last, text, lines)?,
            directive: directive.copy(alloc)?,
            default: zones.copy(alloc)?,
            text: Bytes::from_slice(alloc, text)?,
            zones: own,
        })
    }

    /// The zones that it speaks for.
    pub(crate) fn zones(&self) -> &Names
        ensures { result.now ≡ plan_zones self.now }
    {
        &self.zones
    }

    /// What is listed.
    #[inline]
    pub(crate) fn table(&self) -> &HostsTable
        ensures { IsTable (plan_listings self.now) result.now }
    {
        &self.table
    }

    // Its table, where it is that of this file and these lines.
    fn table_for(&self, text: &[u8], lines: &[Line]) -> Result<Option<Arc<HostsTable>>, NoMemory>
        ensures { IfOk result
            (λ found. IfSome found (λ table. IsTable (listings_in text.now lines.now)
            (arc_value table))) }
    {
        if !are_equal(self.text.as_slice(), text) {
            return Ok(None);
        }
        if !same_words(self.directive.body.as_slice(), lines) {
            return Ok(None);
        }
        Ok(Some(Arc::try_clone(&self.table)?))
    }
}

// The table of a file and lines, which one of these plans may have.
fn table_in(
    alloc: Global,
    last: &[&HostsPlan],
    text: &[u8],
    lines: &[Line],
) -> Result<Arc<HostsTable>, NoMemory>
    ensures { IfOk result
        (λ table. IsTable (listings_in text.now lines.now) (arc_value table)) }
{
    for plan in last {
        if let Some(table) = plan.table_for(text, lines)? {
            return Ok(table);
        }
    }
    Ok(Arc::new(alloc, table_of(alloc, text, lines)?)?)
}
