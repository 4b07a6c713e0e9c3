//! A plan is made of its directive and its upstreams.
ghost use Rattle.std.specs.Prelude.{◌≡◌, ◌≤◌, ◌+◌, ◌++◌, length, IfOk, OnOk};
ghost use Rattle.forward_plugin.specs.Forward.{numbered, numbered_from};
ghost use Rattle.forward_plugin.specs.Options.{is_round};
ghost use Rattle.forward_plugin.specs.Reading.{args_read, forward_read};
ghost use Rattle.plugin_api.specs.declared.fault.DirectiveFault.TheVariants as fault;
ghost use Rattle.upstream_words.specs.Words.{Reads};

use crate::numbered::Numbered;
use crate::options::Policy;
use crate::plan::ForwardPlan;
use crate::reading::{except_of, fails_of, from_of, is_forced, lines_fault, policy_of};
use dns_data::{Copies, Directive, FileText, NoMemory, Seq, Text};
use outside::Upstream;
use plugin_api::{DirectiveFault, DirectiveWhy};
use std::alloc::Global;
use upstream_words::{read_word, read_words};
use zone_words::read_zone;

impl ForwardPlan {
    /// Reads a directive in a bundle with these files, or says what is wrong with it.
    pub fn read(
        alloc: Global,
        directive: &Directive,
        files: &[FileText],
    ) -> Result<ForwardPlan, DirectiveFault>
        ensures { Reads (forward_read directive.now files.now) result }
    {
        let upstreams = read_args(alloc, directive.line, files, directive.args.as_slice())?;
        if let Some(fault) = lines_fault(alloc, directive.body.as_slice())? {
            return Err(fault);
        }
        Ok(ForwardPlan::make(alloc, directive.copy(alloc)?, upstreams)?)
    }

    /// The plan of a directive with these upstreams, which its words and files name.
    pub fn make(
        alloc: Global,
        directive: Directive,
        upstreams: Seq<Upstream>,
    ) -> Result<ForwardPlan, NoMemory>
        requires some { 1 ≤ length upstreams }
        requires few { length upstreams ≤ 15 }
        ensures { IfOk result
            (λ plan. plan ≡ record { directive = directive; upstreams = upstreams }) }
    {
        let lines = directive.body.as_slice();
        let policy = policy_of(lines);
        let most = fails_of(lines);
        let mut ring = Seq::new(alloc);
        add_numbered(&mut ring, upstreams.as_slice(), 0)?;
        add_numbered(&mut ring, upstreams.as_slice(), 0)?;
        Ok(ForwardPlan {
            from: from_of(alloc, directive.args.as_slice())?,
            except: except_of(alloc, lines)?,
            is_forced: is_forced(lines),
            policy,
            most,
            is_pooled: is_round(policy) || 0 < most,
            ring,
            directive,
            upstreams,
        })
    }
}

// The upstreams of a directive.
fn read_args(
    alloc: Global,
    line: u32,
    files: &[FileText],
    args: &[Text],
) -> Result<Seq<Upstream>, DirectiveFault>
    ensures reads { Reads (args_read line files.now args.now) result }
    ensures few { IfOk result (λ us. (1 ≤ length us) × (length us ≤ 15)) }
{
    let Some((from, words)) = args.split_first() else {
        return Err(refused(line, DirectiveWhy::Args));
    };
    if read_zone(alloc, from.as_str().as_bytes())?.is_none() {
        return Err(refused(line, DirectiveWhy::Zone));
    }
    let Some((word, rest)) = words.split_first() else {
        return Err(refused(line, DirectiveWhy::Args));
    };
    let none = Seq::new(alloc);
    let upstreams = read_word(alloc, none, line, files, word.as_str().as_bytes())?;
    read_words(alloc, upstreams, line, files, rest)
}

fn refused(line: u32, why: DirectiveWhy) -> DirectiveFault
    ensures { result ≡ fault.Why line why }
{
    DirectiveFault::Why { line, why }
}

fn is_round(policy: Policy) -> bool
    ensures { result ≡ is_round policy }
{
    match policy {
        Policy::Random | Policy::Sequential => false,
        Policy::RoundRobin => true,
    }
}

// Adds upstreams with their numbers, from this one on.
fn add_numbered(
    ring: &mut Seq<Numbered>,
    upstreams: &[Upstream],
    number: u32,
) -> Result<(), NoMemory>
    requires { number + length upstreams.now ≤ 15 }
    ensures { OnOk result (ring.new ≡ ring.old ++ numbered_from number upstreams.now) }
{
    let Some((upstream, others)) = upstreams.split_first() else {
        return Ok(());
    };
    ring.push(Numbered {
        number,
        upstream: *upstream,
    })?;
    add_numbered(ring, others, number + 1)
}
