use crate::hosts::{copy_apart, copy_numbers};
use crate::marks::push_many;
use crate::ready::meets;
use crate::sets::{copy_asked, copy_denying, copy_kind, has_asked};
use crate::zone::TreeZone;
use dns_data::{Name, NoMemory, Record, RecordRoom, Slot, kind};
use dns_write::Tail;
use std::alloc::Global;
use zone_lookup::{Find, Reached, ZoneStore, host_of, nothing};

/// Where more records than so many name hosts, what is there is marked by names' numbers: that
/// takes memory, and fewer are sooner searched.
const MOST: usize = 16;

// Whether more records than so many name hosts.
fn have_many_hosts(records: &[Record]) -> bool {
    records
        .iter()
        .filter(|record| host_of(*record).is_some())
        .nth(MOST)
        .is_some()
}

impl ZoneStore for TreeZone {
    ghost zone = { λ store. store };

    fn origin(&self) -> &Name {
        &self.tree.zone.origin
    }

    fn exists(&self, name: &Name) -> bool {
        self.tree.table.find(&name.labels()).is_some()
    }

    fn has(&self, name: &Name, kind: u16) -> bool {
        let tree = &self.tree;
        match tree.table.find(&name.labels()) {
            Some(number) => {
                has_asked(
                    tree.zone.records.as_slice(),
                    tree.sets[number].as_slice(),
                    kind,
                )
            }
            None => false,
        }
    }

    fn copy_set(
        &self,
        alloc: Global,
        name: &Name,
        kind: u16,
        out: &mut RecordRoom,
    ) -> Result<(), NoMemory> {
        let tree = &self.tree;
        let Some(number) = tree.table.find(&name.labels()) else {
            return Ok(());
        };
        let records = tree.zone.records.as_slice();
        copy_asked(alloc, records, tree.sets[number].as_slice(), kind, out)
    }

    fn copy_top(&self, alloc: Global, kind: u16, out: &mut RecordRoom) -> Result<(), NoMemory> {
        let tree = &self.tree;
        let Some(number) = tree.top else {
            return Ok(());
        };
        let all = tree.zone.records.as_slice();
        copy_asked(alloc, all, tree.sets[number].as_slice(), kind, out)
    }

    fn cut(&self, alloc: Global, name: &Name) -> Result<Option<Name>, NoMemory> {
        let tree = &self.tree;
        let Some(encloser) = tree.table.find_longest(name) else {
            return Ok(None);
        };
        let Some(cut) = tree.cuts[encloser.number] else {
            return Ok(None);
        };
        let above = name.label_count() - tree.nodes[cut].labels;
        Ok(Some(name.suffix(alloc, above)?))
    }

    fn encloser(&self, alloc: Global, name: &Name) -> Result<Option<Name>, NoMemory> {
        let Some(encloser) = self.tree.table.find_longest(name) else {
            return Ok(None);
        };
        Ok(Some(name.suffix(alloc, encloser.above)?))
    }

    fn find(
        &self,
        alloc: Global,
        name: &Name,
        kind: u16,
        out: &mut RecordRoom,
    ) -> Result<Find, NoMemory> {
        let Some(encloser) = self.tree.table.find_longest(name) else {
            return Ok(nothing());
        };
        self.tree.find(alloc, name, encloser, kind, out)
    }

    fn copy_denial(&self, alloc: Global, out: &mut RecordRoom) -> Result<(), NoMemory> {
        let tree = &self.tree;
        let Some(number) = tree.top else {
            return Ok(());
        };
        let records = tree.zone.records.as_slice();
        copy_denying(alloc, records, tree.sets[number].as_slice(), out)
    }

    fn push_hosts(
        &self,
        alloc: Global,
        answer: &[Record],
        records: &[Record],
        out: &mut RecordRoom,
    ) -> Result<(), NoMemory> {
        if MOST < records.len() && have_many_hosts(records) {
            return push_many(alloc, &self.tree, answer, records, out);
        }
        for record in records {
            self.push_addresses(alloc, answer, host_of(record), out)?;
        }
        Ok(())
    }

    fn push_servers(
        &self,
        alloc: Global,
        answer: &[Record],
        authority: &mut RecordRoom,
        additional: &mut RecordRoom,
    ) -> Result<(), NoMemory> {
        let tree = &self.tree;
        let Some(number) = tree.top else {
            return Ok(());
        };
        let records = tree.zone.records.as_slice();
        let start = authority.len();
        copy_kind(
            alloc,
            records,
            tree.sets[number].as_slice(),
            kind::NS,
            authority,
        )?;
        let Some(hosts) = &tree.hosts[number] else {
            return self.push_hosts(alloc, answer, &authority.as_slice()[start..], additional);
        };
        if copy_apart(alloc, records, hosts.as_slice(), answer, additional)? {
            return Ok(());
        }
        self.push_hosts(alloc, answer, &authority.as_slice()[start..], additional)
    }

    fn ready_servers(&self, answer: &[Record]) -> Option<&Tail> {
        let Some(tail) = &self.servers else {
            return None;
        };
        if meets(tail.additional(), answer) {
            return None;
        }
        Some(tail)
    }

    fn ready_denial(&self) -> Option<&Tail> {
        let Some(tail) = &self.denial else {
            return None;
        };
        Some(tail)
    }

    fn refer_or_find(
        &self,
        alloc: Global,
        name: &Name,
        kind: u16,
        slot: &mut Slot,
    ) -> Result<Reached<'_>, NoMemory> {
        let tree = &self.tree;
        let Some(encloser) = tree.table.find_longest(name) else {
            return Ok(Reached::Found(nothing()));
        };
        let Some(cut) = tree.cuts[encloser.number] else {
            let find = tree.find(alloc, name, encloser, kind, &mut slot.answer)?;
            return Ok(Reached::Found(find));
        };
        if let Some(tail) = &self.referrals[cut] {
            return Ok(Reached::Lent(tail));
        }
        let records = tree.zone.records.as_slice();
        let set = tree.sets[cut].as_slice();
        copy_kind(alloc, records, set, kind::NS, &mut slot.authority)?;
        let Some(hosts) = &tree.hosts[cut] else {
            let servers = slot.authority.as_slice();
            self.push_hosts(alloc, &[], servers, &mut slot.additional)?;
            return Ok(Reached::Cut);
        };
        copy_numbers(alloc, records, hosts.as_slice(), &mut slot.additional)?;
        Ok(Reached::Cut)
    }
}
