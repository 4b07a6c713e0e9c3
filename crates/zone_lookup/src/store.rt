ghost use Rattle.std.specs.Prelude.{◌≡◌, ◌++◌, map, OnOk, OnErr, IfOk, IfSome};
ghost use Rattle.std.specs.Option.{option_map};
ghost use Rattle.dns_data.specs.Message.{no_answer};
ghost use Rattle.dns_data.specs.declared.kind.TheConstants as kinds;
ghost use Rattle.dns_data.specs.declared.zone.Zone.{Zone};
ghost use Rattle.zone_lookup.specs.Ready.{IsDenial, IsReady};
ghost use Rattle.zone_lookup.specs.Zone.{exists_in, has_at, set_at, cut_of, encloser, Begins};
ghost use Rattle.zone_lookup.specs.ZoneAnswer.{found, found_at, is_alias, denying, sought};
ghost use Rattle.zone_lookup.specs.ZoneAnswer.{with_addresses, with_hosts, with_set};
ghost use Rattle.zone_lookup.specs.ZoneAnswer.{Finds, Refers, Steps};

use crate::find::{
    Find, Reached, Step, cut_or, is_aliased_kind, nothing, push_denying, push_owned, star_below,
    target_from,
};
use crate::hosts::{host_of, stands_in};
use crate::names::is_star;
use dns_data::{Copies, Name, NoMemory, Record, RecordRoom, Slot, kind};
use dns_write::Tail;
use std::alloc::Global;
use std::mem;

/// The records of a zone, which contracts see as a list.
pub trait ZoneStore {
    /// The origin and the records.
    ghost zone: { Self → Zone };

    fn origin(&self) -> &Name
        ensures { result.now ≡ (zone self.now).origin };

    /// Whether a record's owner is the name or lies below it.
    fn exists(&self, name: &Name) -> bool
        ensures { result ≡ exists_in (zone self.now) name.now };

    /// Whether the name has records of a type, or any for type ANY.
    fn has(&self, name: &Name, kind: u16) -> bool
        ensures { result ≡ has_at (zone self.now) name.now kind };

    /// Appends copies of the records of a type at a name, or of all for type ANY, in order of type.
    fn copy_set(
        &self,
        alloc: Global,
        name: &Name,
        kind: u16,
        out: &mut RecordRoom,
    ) -> Result<(), NoMemory>
        ensures ok { OnOk result (out.new ≡ out.old ++ set_at (zone self.now) name.now kind) }
        ensures err { OnErr result (Begins out.old out.new) };

    /// Appends copies of the records of a type at the origin.
    fn copy_top(&self, alloc: Global, kind: u16, out: &mut RecordRoom) -> Result<(), NoMemory>
        ensures { OnOk result
            (out.new ≡ out.old ++ set_at (zone self.now) (zone self.now).origin kind) }
    {
        self.copy_set(alloc, self.origin(), kind, out)
    }

    /// The cut at or above a name.
    fn cut(&self, alloc: Global, name: &Name) -> Result<Option<Name>, NoMemory>
        ensures { IfOk result (λ cut. cut ≡ cut_of (zone self.now) name.now) }
    {
        let top = self.origin().label_count();
        let mut cut = None;
        let mut rest = name.copy(alloc)?;
        while top < rest.label_count() {
            let above = rest.suffix(alloc, 1)?;
            let is_wild = is_star(rest.label(0));
            let has_servers = self.has(&rest, kind::NS);
            cut = cut_or(rest, has_servers, is_wild, cut);
            rest = above;
        }
        Ok(cut)
    }

    /// The longest of a name and those above it that exists.
    fn encloser(&self, alloc: Global, name: &Name) -> Result<Option<Name>, NoMemory>
        ensures { IfOk result (λ top. top ≡ encloser (zone self.now) name.now) }
    {
        let mut rest = name.copy(alloc)?;
        while 0 < rest.label_count() {
            if self.exists(&rest) {
                return Ok(Some(rest));
            }
            rest = rest.suffix(alloc, 1)?;
        }
        if self.exists(&rest) {
            return Ok(Some(rest));
        }
        Ok(None)
    }

    /// Whether a CNAME stands in for records of a type.
    #[tactic(auto, unfolding(crate::specs::ZoneAnswer::is_alias))]
    fn is_alias(&self, name: &Name, kind: u16) -> bool
        ensures { result ≡ is_alias (zone self.now) name.now kind }
    {
        is_aliased_kind(kind) && self.has(name, kind::CNAME)
    }

    /// Appends what stands at a name that exists.
    fn find_at(
        &self,
        alloc: Global,
        name: &Name,
        kind: u16,
        out: &mut RecordRoom,
    ) -> Result<Find, NoMemory>
        ensures { IfOk result
            (λ find. Finds (found_at (zone self.now) name.now kind) find out.old out.new) }
    {
        if self.is_alias(name, kind) {
            let start = out.len();
            self.copy_set(alloc, name, kind::CNAME, out)?;
            let target = target_from(alloc, out, start)?;
            return Ok(Find {
                absent: false,
                target,
            });
        }
        self.copy_set(alloc, name, kind, out)?;
        Ok(Find {
            absent: false,
            target: None,
        })
    }

    /// Appends what a name gives: what stands at it, or what the wildcard below its closest
    /// encloser gives for it.
    fn find(
        &self,
        alloc: Global,
        name: &Name,
        kind: u16,
        out: &mut RecordRoom,
    ) -> Result<Find, NoMemory>
        ensures { IfOk result
            (λ find. Finds (found (zone self.now) name.now kind) find out.old out.new) }
    {
        if self.exists(name) {
            return self.find_at(alloc, name, kind, out);
        }
        let top = self.encloser(alloc, name)?;
        let Some(star) = star_below(alloc, top)? else {
            return Ok(nothing());
        };
        if !self.exists(&star) {
            return Ok(nothing());
        }
        let mut records = RecordRoom::new(alloc);
        let find = self.find_at(alloc, &star, kind, &mut records)?;
        push_owned(alloc, records.as_slice(), name, out)?;
        Ok(find)
    }

    /// Appends the SOA records of a denial.
    fn copy_denial(&self, alloc: Global, out: &mut RecordRoom) -> Result<(), NoMemory>
        ensures { OnOk result (out.new ≡ out.old
            ++ map denying (set_at (zone self.now) (zone self.now).origin kinds.SOA)) }
    {
        let mut records = RecordRoom::new(alloc);
        self.copy_set(alloc, self.origin(), kind::SOA, &mut records)?;
        push_denying(alloc, records.as_slice(), out)
    }

    /// Appends the NS set of the cut at or above a name, or else what the name gives.
    fn step(
        &self,
        alloc: Global,
        name: &Name,
        kind: u16,
        out: &mut RecordRoom,
    ) -> Result<Step, NoMemory>
        ensures { IfOk result
            (λ step. Steps (sought (zone self.now) name.now kind) step out.old out.new) }
    {
        let cut = self.cut(alloc, name)?;
        if let Some(cut) = cut {
            self.copy_set(alloc, &cut, kind::NS, out)?;
            return Ok(Step::Cut);
        }
        let find = self.find(alloc, name, kind, out)?;
        Ok(Step::Found(find))
    }

    /// Appends a set, unless one of its records stands in the answer or is there.
    #[tactic(auto, unfolding(crate::specs::ZoneAnswer::with_set))]
    fn push_set(
        &self,
        alloc: Global,
        answer: &[Record],
        name: &Name,
        kind: u16,
        out: &mut RecordRoom,
    ) -> Result<(), NoMemory>
        ensures { OnOk result
            (out.new ≡ with_set (zone self.now) answer.now out.old name.now kind) }
    {
        let answered = stands_in(answer, name, kind);
        let there = stands_in(out.as_slice(), name, kind);
        if answered || there {
            return Ok(());
        }
        self.copy_set(alloc, name, kind, out)
    }

    /// Appends the addresses of a host: A, then AAAA.
    #[tactic(auto, unfolding(crate::specs::ZoneAnswer::with_addresses))]
    fn push_addresses(
        &self,
        alloc: Global,
        answer: &[Record],
        host: Option<&Name>,
        out: &mut RecordRoom,
    ) -> Result<(), NoMemory>
        ensures { OnOk result (out.new ≡ with_addresses (zone self.now) answer.now out.old
            (option_map (λ name. name.now) host.entry)) }
    {
        if let Some(name) = host {
            self.push_set(alloc, answer, name, kind::A, out)?;
            self.push_set(alloc, answer, name, kind::AAAA, out)?;
        }
        Ok(())
    }

    /// Appends the addresses of the hosts that records name.
    fn push_hosts(
        &self,
        alloc: Global,
        answer: &[Record],
        records: &[Record],
        out: &mut RecordRoom,
    ) -> Result<(), NoMemory>
        ensures { OnOk result
            (out.new ≡ with_hosts (zone self.now) answer.now out.old records.now) }
    {
        for record in records {
            self.push_addresses(alloc, answer, host_of(record), out)?;
        }
        Ok(())
    }

    /// Appends the origin's NS to the authority section, and the addresses of its hosts to the
    /// additional one.
    fn push_servers(
        &self,
        alloc: Global,
        answer: &[Record],
        authority: &mut RecordRoom,
        additional: &mut RecordRoom,
    ) -> Result<(), NoMemory>
        ensures authority { OnOk result (authority.new
            ≡ authority.old ++ set_at (zone self.now) (zone self.now).origin kinds.NS) }
        ensures additional { OnOk result (additional.new
            ≡ with_hosts (zone self.now) answer.now additional.old
            (set_at (zone self.now) (zone self.now).origin kinds.NS)) }
    {
        let start = authority.len();
        self.copy_top(alloc, kind::NS, authority)?;
        self.push_hosts(alloc, answer, &authority.as_slice()[start..], additional)
    }

    /// The origin's NS and the addresses of its hosts, where these stand ready and none of them is
    /// in the answer section.
    fn ready_servers(&self, answer: &[Record]) -> Option<&Tail>
        ensures { IfSome result (λ tail. IsReady (zone self.now) answer.now tail.now) }
    {
        let _ = answer;
        None
    }

    /// The SOA of a denial, where it stands ready.
    fn ready_denial(&self) -> Option<&Tail>
        ensures { IfSome result (λ tail. IsDenial (zone self.now) tail.now) }
    {
        None
    }

    /// Fills a slot with the referral of the cut at or above a name, or lends its two sections
    /// where they stand ready, or else fills the slot's answer section with what the name gives.
    fn refer_or_find(
        &self,
        alloc: Global,
        name: &Name,
        kind: u16,
        slot: &mut Slot,
    ) -> Result<Reached<'_>, NoMemory>
        requires clear { slot.old ≡ no_answer }
        ensures { IfOk result (λ reached.
            Refers (zone self.now) (sought (zone self.now) name.now kind) reached slot.new) }
    {
        match self.step(alloc, name, kind, &mut slot.answer)? {
            Step::Cut => {
                mem::swap(&mut slot.answer, &mut slot.authority);
                self.push_hosts(
                    alloc,
                    slot.answer.as_slice(),
                    slot.authority.as_slice(),
                    &mut slot.additional,
                )?;
                Ok(Reached::Cut)
            }
            Step::Found(find) => Ok(Reached::Found(find)),
        }
    }
}
