ghost use Rattle.std.specs.Prelude.{◌≡◌, ◌<◌, [], length, IfOk, IfSome};
ghost use Rattle.zone_lookup.specs.Ready.{IsDenial, IsReady};
ghost use Rattle.zone_tree.specs.Ready.{AreReferrals, IsReferralAt};
ghost use Rattle.zone_tree.specs.Sets.{meet};
ghost use Rattle.zone_tree.specs.Tree.{IsTree};

use crate::hosts::{copy_numbers, has_like};
use crate::sets::{copy_denying, copy_kind};
use crate::tree::Tree;
use dns_data::{NoMemory, Record, RecordRoom, kind};
use dns_write::Tail;
use std::alloc::Global;
use zone_lookup::host_of;

/// The names in a zone's referrals that stand ready have no more labels than so many together: many
/// cuts can have the same hosts, and all labels and suffixes of one are held against one another.
const MOST_LABELS: usize = 32_768;

/// One with more records doesn't stand ready.
const MOST_RECORDS: usize = 64;

/// The origin's NS and the addresses of its hosts, where the numbers of these are kept.
pub fn servers_of(alloc: Global, tree: &Tree) -> Result<Option<Tail>, NoMemory>
    requires { IsTree tree.now }
    ensures { IfOk result (λ tail. IfSome tail (λ t. IsReady tree.now.zone [] t)) }
{
    let Some(top) = tree.top else {
        return Ok(None);
    };
    let Some((servers, hosts)) = sections_at(alloc, tree, top)? else {
        return Ok(None);
    };
    if servers.len() == 0 {
        return Ok(None);
    }
    let anchor = &tree.zone.origin;
    Ok(Some(Tail::new(alloc, anchor, servers.as_slice(), hosts.as_slice())?))
}

/// The NS of each cut and the addresses of their hosts, as far as they stand ready. The places of
/// other names stay empty.
pub fn referrals_of(alloc: Global, tree: &Tree) -> Result<Vec<Option<Box<Tail>>>, NoMemory>
    requires { IsTree tree.now }
    ensures { IfOk result (λ made. AreReferrals tree.now made.items (length tree.now.table)) }
{
    let mut left = MOST_LABELS;
    let mut made = Vec::with_capacity(alloc, tree.table.len())?;
    for i in 0..tree.table.len() {
        let tail = referral_at(alloc, tree, i, left)?;
        left = left.saturating_sub(labels_of(&tail));
        made.push(tail)?;
    }
    Ok(made)
}

// The NS of a cut and the addresses of their hosts, where these are few and their names have no
// more labels than so many.
fn referral_at(
    alloc: Global,
    tree: &Tree,
    number: usize,
    most: usize,
) -> Result<Option<Box<Tail>>, NoMemory>
    requires tree { IsTree tree.now }
    requires inside { number < length tree.now.table }
    ensures { IfOk result (λ tail. IfSome tail (λ t. IsReferralAt tree.now number t.value)) }
{
    if !is_short_cut(tree, number) {
        return Ok(None);
    }
    let Some((servers, hosts)) = sections_at(alloc, tree, number)? else {
        return Ok(None);
    };
    let Some(first) = servers.as_slice().first() else {
        return Ok(None);
    };
    if most < labels_in(servers.as_slice(), hosts.as_slice()) {
        return Ok(None);
    }
    let tail = Tail::new(alloc, &first.owner, servers.as_slice(), hosts.as_slice())?;
    Ok(Some(Box::new(alloc, tail)?))
}

// Whether a number is that of a cut whose records and whose hosts' addresses are few.
fn is_short_cut(tree: &Tree, number: usize) -> bool
    requires tree { IsTree tree.now }
    requires inside { number < length tree.now.table }
{
    if tree.cuts[number] != Some(number) {
        return false;
    }
    let Some(hosts) = &tree.hosts[number] else {
        return false;
    };
    hosts.len() <= MOST_RECORDS && tree.sets[number].len() <= MOST_RECORDS - hosts.len()
}

fn labels_of(tail: &Option<Box<Tail>>) -> usize {
    match tail {
        Some(tail) => labels_in(tail.authority(), tail.additional()),
        None => 0,
    }
}

// How many labels the names in two sections of a referral have.
fn labels_in(servers: &[Record], hosts: &[Record]) -> usize {
    let mut labels = 0_usize;
    for server in servers {
        labels = labels.saturating_add(server.owner.label_count());
        if let Some(host) = host_of(server) {
            labels = labels.saturating_add(host.label_count());
        }
    }
    for host in hosts {
        labels = labels.saturating_add(host.owner.label_count());
    }
    labels
}

// The NS of a name and the addresses of their hosts, where the numbers of these are kept.
fn sections_at(
    alloc: Global,
    tree: &Tree,
    number: usize,
) -> Result<Option<(RecordRoom, RecordRoom)>, NoMemory>
    requires tree { IsTree tree.now }
    requires inside { number < length tree.now.table }
    ensures { IfOk result (λ sections. IfSome sections (λ s. IsReferralAt tree.now number
        (record { authority = s.0; additional = s.1 }))) }
{
    let Some(numbers) = &tree.hosts[number] else {
        return Ok(None);
    };
    let records = tree.zone.records.as_slice();
    let set = tree.sets[number].as_slice();
    let mut servers = RecordRoom::new(alloc);
    copy_kind(alloc, records, set, kind::NS, &mut servers)?;
    let mut hosts = RecordRoom::new(alloc);
    copy_numbers(alloc, records, numbers.as_slice(), &mut hosts)?;
    Ok(Some((servers, hosts)))
}

/// The origin's SOA with the TTL of a denial, where there is one.
pub fn denial_of(alloc: Global, tree: &Tree) -> Result<Option<Tail>, NoMemory>
    requires { IsTree tree.now }
    ensures { IfOk result (λ tail. IfSome tail (λ t. IsDenial tree.now.zone t)) }
{
    let Some(top) = tree.top else {
        return Ok(None);
    };
    let records = tree.zone.records.as_slice();
    let mut denial = RecordRoom::new(alloc);
    copy_denying(alloc, records, tree.sets[top].as_slice(), &mut denial)?;
    if denial.len() == 0 {
        return Ok(None);
    }
    Ok(Some(Tail::new(alloc, &tree.zone.origin, denial.as_slice(), &[])?))
}

/// Whether one of the records has the name and the type of one of the others.
#[inline]
#[tactic(auto, unfolding(crate::specs::Sets::meet))]
pub fn meets(records: &[Record], others: &[Record]) -> bool
    ensures { result ≡ meet others.now records.now }
{
    if others.len() == 0 {
        return false;
    }
    for record in records {
        if has_like(others, record) {
            return true;
        }
    }
    false
}
