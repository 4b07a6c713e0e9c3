ghost use Rattle.std.specs.Prelude.{◌≡◌, ◌<◌, ◌^◌, ◌++◌, ◌∷◌, [], map, IfOk, OnOk};
ghost use Rattle.dns64_plugin.specs.Dns64.{combined, is_allowed, points_at, translated, translates};
ghost use Rattle.dns64_plugin.specs.Dns64.{Points, PointsBy};
ghost use Rattle.dns64_plugin.specs.Reading.{ReadsDns64};

use crate::asking::set_named;
use crate::options::{has_option, prefix_by, seen_first};
use crate::prefixes::{embedded, extracted};
use crate::reading::{lines_fault, words_why};
use crate::replying::has_a;
use dns_data::{
    Addr, Copies, Directive, Name, NoMemory, Query, Rdata, Record, RecordRoom, Slot, class, kind,
    rcode,
};
use plugin_api::DirectiveFault;
use std::alloc::Global;
use std::marker::Model;
use std::mem;

/// A directive `dns64`, with what was made of its words once. Contracts see the directive.
#[derive(Debug, Drop)]
pub struct Dns64Plan {
    directive: Directive,
    // The upper 96 bits of the addresses that stand for addresses of IPv4.
    prefix: u128,
    // Whether clients of IPv4 are served as those of IPv6 are.
    allow_ipv4: bool,
    // Whether names of addresses are found under the prefix.
    ptr: bool,
}

impl Model for Dns64Plan {
    ghost use Rattle.dns_data.specs.declared.directive.Directive.{Directive};
    ghost use Rattle.dns64_plugin.specs.Options.{IsMade};

    ghost Value = { Directive };

    ghost view = { λ p. p.directive };

    ghost invariant = { λ p. IsMade p.directive p.prefix p.allow_ipv4 p.ptr };
}

impl Dns64Plan {
    /// Reads a directive, or says what is wrong with it.
    #[tactic(auto, unfolding(crate::specs::Reading::dns64_fault))]
    pub fn read(alloc: Global, directive: &Directive) -> Result<Dns64Plan, DirectiveFault>
        ensures { ReadsDns64 directive.now result }
    {
        let words = directive.args.as_slice();
        let lines = directive.body.as_slice();
        if let Some(why) = words_why(words) {
            return Err(DirectiveFault::Why {
                line: directive.line,
                why,
            });
        }
        if let Some(fault) = lines_fault(seen_first(words), lines) {
            return Err(fault);
        }
        Ok(Dns64Plan {
            prefix: prefix_by(words, lines),
            allow_ipv4: has_option(lines, b"allow_ipv4"),
            ptr: has_option(lines, b"ptr"),
            directive: directive.copy(alloc)?,
        })
    }

    /// Whether a query is one for addresses of IPv6, for which the rest may run a second time.
    #[inline(always)]
    pub fn translates(&self, query: &Query) -> bool
        ensures { result ≡ translates self.now query.now }
    {
        query.kind == kind::AAAA && self.is_allowed(&query.client)
    }

    #[inline(always)]
    fn is_allowed(&self, client: &Addr) -> bool
        ensures { result ≡ is_allowed self.now client.now }
    {
        match client {
            Addr::V4(_) => self.allow_ipv4,
            Addr::V6(_) => true,
        }
    }

    /// Makes addresses of IPv6 of those of IPv4 that the second run answered, with TTLs of at most
    /// `bound` seconds, which `needs_second` told of the first run. Another RCODE than NOERROR
    /// leaves the answer as it is. `spare` is what `clear_for_second` was given.
    pub fn combine(
        &self,
        alloc: Global,
        bound: u32,
        slot: &mut Slot,
        spare: &mut RecordRoom,
    ) -> Result<(), NoMemory>
        requires { bound < 2 ^ 31 }
        ensures { OnOk result (slot.new ≡ combined self.now bound slot.old) }
    {
        if slot.rcode != rcode::NOERROR || !has_a(slot.answer.as_slice()) {
            return Ok(());
        }
        mem::swap(&mut slot.answer, spare);
        slot.answer.clear();
        self.push_translated(alloc, bound, spare.as_slice(), &mut slot.answer)
    }

    // Adds records, each A among them as AAAA.
    fn push_translated(
        &self,
        alloc: Global,
        bound: u32,
        records: &[Record],
        out: &mut RecordRoom,
    ) -> Result<(), NoMemory>
        requires { bound < 2 ^ 31 }
        ensures { OnOk result
            (out.new ≡ out.old ++ map (translated self.now bound) records.now) }
    {
        let mut rest = records;
        while let Some((entry, behind)) = rest.split_first() {
            self.push_one(alloc, bound, entry, out)?;
            rest = behind;
        }
        Ok(())
    }

    fn push_one(
        &self,
        alloc: Global,
        bound: u32,
        entry: &Record,
        out: &mut RecordRoom,
    ) -> Result<(), NoMemory>
        requires { bound < 2 ^ 31 }
        ensures { OnOk result
            (out.new ≡ out.old ++ translated self.now bound entry.now ∷ []) }
    {
        match &entry.rdata {
            Rdata::A(addr) => {
                let ttl = entry.ttl.min(bound);
                let addr = embedded(self.prefix, *addr);
                if entry.class == class::IN {
                    return out.push_address(alloc, &entry.owner, ttl, Addr::V6(addr));
                }
                let made = Record::new(Name::root(alloc), entry.class, ttl, Rdata::Aaaa(addr));
                out.push_copy(alloc, &entry.owner, ttl, &made)
            }
            _ => out.push(alloc, entry),
        }
    }

    /// Writes over `inner` with the query for the name of the address of IPv4, where the query is
    /// for the name of one within the prefix, and says whether it is. The first tests stand in the
    /// caller, so that most queries take no call more.
    #[inline(always)]
    pub fn ptr_query(
        &self,
        alloc: Global,
        query: &Query,
        inner: &mut Query,
    ) -> Result<bool, NoMemory>
        ensures { IfOk result (λ is. Points self.now query.now inner.new is) }
    {
        if !self.ptr || query.kind != kind::PTR || !self.is_allowed(&query.client) {
            return Ok(false);
        }
        self.write_named(alloc, query, inner)
    }

    // The same of a query for a name of an address.
    #[inline(never)]
    fn write_named(&self, alloc: Global, query: &Query, inner: &mut Query) -> Result<bool, NoMemory>
        ensures { IfOk result (λ is. PointsBy query.now (points_at self.now query.now.name)
            inner.new is) }
    {
        let Some(addr) = self.points_at(&query.name) else {
            return Ok(false);
        };
        set_named(alloc, query, addr, inner)?;
        Ok(true)
    }

    // The address of IPv4 for which that one stands whose name this is.
    fn points_at(&self, name: &Name) -> Option<u32>
        ensures { result ≡ points_at self.now name.now }
    {
        match name.reversed_addr()? {
            Addr::V4(_) => None,
            Addr::V6(addr) => extracted(self.prefix, addr),
        }
    }
}
