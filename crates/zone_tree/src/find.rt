ghost use Rattle.std.specs.Prelude.{◌≡◌, ◌≤◌, false, None, length, take, IfOk};
ghost use Rattle.std.specs.List.{filter};
ghost use Rattle.dns_data.specs.declared.kind.TheConstants as kinds;
ghost use Rattle.name_table.specs.{IsLongest};
ghost use Rattle.zone_lookup.specs.{Finds, found};
ghost use Rattle.zone_lookup.specs.ZoneAnswer.{alias_found, owned_by};
ghost use Rattle.zone_tree.specs.Sets.{found_in, is_alias_in, is_kind, picked};
ghost use Rattle.zone_tree.specs.Tree.{IsTree};

use crate::sets::{copy_and_tell, copy_asked, copy_kind, copy_owned, has_asked};
use crate::tree::Tree;
use dns_data::{Name, NoMemory, Record, RecordRoom, kind};
use name_table::Longest;
use std::alloc::Global;
use zone_lookup::{Find, is_aliased_kind, nothing, target_from};

impl Tree {
    /// Appends what a name gives: what stands at it, or what the wildcard below its closest
    /// encloser gives for it. The table has the closest encloser as its longest suffix.
    #[inline(always)]
    pub fn find(
        &self,
        alloc: Global,
        name: &Name,
        encloser: Longest,
        kind: u16,
        out: &mut RecordRoom,
    ) -> Result<Find, NoMemory>
        requires tree { IsTree self.now }
        requires longest { IsLongest self.now.table name.now encloser }
        ensures { IfOk result
            (λ find. Finds (found self.now.zone name.now kind) find out.old out.new) }
    {
        let records = self.zone.records.as_slice();
        if encloser.above == 0 {
            let set = self.sets[encloser.number].as_slice();
            return find_in(alloc, records, set, kind, out);
        }
        let Some(star) = self.nodes[encloser.number].star else {
            return Ok(nothing());
        };
        find_owned(alloc, records, self.sets[star].as_slice(), kind, name, out)
    }
}

// Appends what stands at a name with these records.
#[inline(always)]
fn find_in(
    alloc: Global,
    records: &[Record],
    set: &[usize],
    kind: u16,
    out: &mut RecordRoom,
) -> Result<Find, NoMemory>
    ensures { IfOk result
        (λ find. Finds (found_in (picked records.now set.now) kind) find out.old out.new) }
{
    if !is_aliased_kind(kind) {
        copy_asked(alloc, records, set, kind, out)?;
        return Ok(no_target());
    }
    let start = out.len();
    if copy_and_tell(alloc, records, set, kind, out)? {
        return find_alias(alloc, records, set, start, out);
    }
    Ok(no_target())
}

// Appends the CNAME records in place of what stands there from some place on.
#[inline(never)]
fn find_alias(
    alloc: Global,
    records: &[Record],
    set: &[usize],
    from: usize,
    out: &mut RecordRoom,
) -> Result<Find, NoMemory>
    requires { from ≤ length out.old }
    ensures { IfOk result (λ find. Finds
        (alias_found (filter (is_kind kinds.CNAME) (picked records.now set.now)))
        find (take from out.old) out.new) }
{
    out.truncate(from);
    copy_kind(alloc, records, set, kind::CNAME, out)?;
    let target = target_from(alloc, out, from)?;
    Ok(Find {
        absent: false,
        target,
    })
}

// Appends the same for a name at which a wildcard stands in.
#[inline(never)]
fn find_owned(
    alloc: Global,
    records: &[Record],
    set: &[usize],
    kind: u16,
    name: &Name,
    out: &mut RecordRoom,
) -> Result<Find, NoMemory>
    ensures { IfOk result (λ find. Finds
        (owned_by name.now (found_in (picked records.now set.now) kind)) find out.old out.new) }
{
    if is_alias_in(records, set, kind) {
        let start = out.len();
        copy_owned(alloc, records, set, kind::CNAME, name, out)?;
        let target = target_from(alloc, out, start)?;
        return Ok(Find {
            absent: false,
            target,
        });
    }
    copy_owned(alloc, records, set, kind, name, out)?;
    Ok(no_target())
}

// The records of a name are its own.
#[inline]
fn no_target() -> Find
    ensures absent { result.absent ≡ false }
    ensures target { result.target ≡ None }
{
    Find {
        absent: false,
        target: None,
    }
}

#[tactic(auto, unfolding(crate::specs::Sets::is_alias_in))]
fn is_alias_in(records: &[Record], set: &[usize], kind: u16) -> bool
    ensures { result ≡ is_alias_in (picked records.now set.now) kind }
{
    is_aliased_kind(kind) && has_asked(records, set, kind::CNAME)
}
