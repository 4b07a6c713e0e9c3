//! What a gathering comes to, beside what serves.
ghost use Rattle.std.specs.Prelude.{◌≡◌, ◌≢◌, map, IfOk, IsTrue, ◌↔◌, Ok};
ghost use Rattle.plugin_api.specs.{Obey};
ghost use Rattle.corefile_blocks.specs.{IsReadable};
ghost use Rattle.corefile_bundle.specs.{IfOther, read_again};
ghost use Rattle.chain_build.specs.{ArePlans, ground_of};
ghost use Rattle.outside.specs.States.{WatchState};
ghost use Rattle.reload_watch.specs.Going.{found_behind};
ghost use Rattle.reload_watch.specs.Look.{Finds};

use crate::fault::{answer_to, read_fault};
use chain_build::{CheckFault, Plans, recheck};
use corefile_blocks::Bundle;
use corefile_bundle::{GatherFault, Regathered};
use dns_data::{NoMemory, Seq};
use outside::Watch;
use plugin_api::{Extra, Rulebook};
use run_meaning::{Looking, Ports};
use std::alloc::Global;

/// What a gathering comes to: the answer of the look, or what is to serve next.
pub(crate) enum Found<B: Rulebook> {
    Kept(Looking),
    Next(Plans<B>),
}

pub(crate) fn find<W: Watch, B: Rulebook, E: Extra>(
    alloc: Global,
    gathered: Result<Regathered, GatherFault>,
    current: &Plans<B>,
    judges: &[E],
    watch: &mut W,
) -> Found<B>
    requires current { current.now.names ≡ map E.title judges.now }
    requires judges { Obey B.taken B.said E.title E.takes E.ruling judges.now }
    requires readable { IfOther gathered (λ bundle. IsReadable bundle) }
    ensures finds { Finds B.taken B.said current.now (read_again current.now.bundle gathered)
        result }
    ensures watch { W.state watch.new ≡ found_behind result (W.state watch.old) }
{
    match gathered {
        Ok(Regathered::Same) => Found::Kept(Looking::Same),
        Ok(Regathered::Other(bundle)) => compare(alloc, bundle, current, judges, watch),
        Err(fault) => Found::Kept(answer_to(read_fault(fault))),
    }
}

// What a bundle comes to.
fn compare<W: Watch, B: Rulebook, E: Extra>(
    alloc: Global,
    bundle: Bundle,
    current: &Plans<B>,
    judges: &[E],
    watch: &mut W,
) -> Found<B>
    requires current { current.now.names ≡ map E.title judges.now }
    requires judges { Obey B.taken B.said E.title E.takes E.ruling judges.now }
    requires readable { IsReadable bundle }
    ensures finds { Finds B.taken B.said current.now (Ok bundle) result }
    ensures watch { W.state watch.new ≡ found_behind result (W.state watch.old) }
{
    if bundle.equals(&current.bundle) {
        return Found::Kept(Looking::Same);
    }
    current.tell();
    let port = current.default_port;
    match recheck(alloc, current, bundle, port, judges, watch) {
        Ok(plans) => compare_ports(alloc, plans, current),
        Err(CheckFault::Refused(refusal)) => Found::Kept(Looking::Refused(refusal)),
        Err(CheckFault::NoMemory) => Found::Kept(Looking::NoMemory),
    }
}

// What the plans of another bundle come to: a reload keeps the ports.
fn compare_ports<B: Rulebook>(alloc: Global, plans: Plans<B>, current: &Plans<B>) -> Found<B>
    requires current { ArePlans B.taken B.said current.now }
    requires are { ArePlans B.taken B.said plans }
    requires basis { ground_of plans ≡ ground_of current.now }
    requires differs { plans.bundle ≢ current.now.bundle }
    ensures finds { Finds B.taken B.said current.now (Ok plans.bundle) result }
    ensures quiet { (state : WatchState) → found_behind result state ≡ state }
{
    if is_same_ports(plans.ports.as_slice(), current.ports.as_slice()) {
        return Found::Next(plans);
    }
    let Ok(kept) = copy_ports(alloc, current.ports.as_slice()) else {
        return Found::Kept(Looking::NoMemory);
    };
    Found::Kept(Looking::PortsDiffer {
        kept,
        read: plans.ports,
    })
}

fn is_same_ports(a: &[u16], b: &[u16]) -> bool
    ensures { IsTrue result ↔ (a.now ≡ b.now) }
{
    a == b
}

fn copy_ports(alloc: Global, ports: &[u16]) -> Result<Ports, NoMemory>
    ensures { IfOk result (λ copy. copy ≡ ports.now) }
{
    let mut copy = Vec::new(alloc);
    copy.extend_from_slice(ports)?;
    Ok(Seq::of(copy))
}
