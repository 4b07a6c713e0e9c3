ghost use Rattle.std.specs.Prelude.{◌≡◌, ◌++◌, map, IfOk, OnOk};
ghost use Rattle.plugin_api.specs.{PlanData};
ghost use Rattle.chain_meaning.specs.Steps.{acl_steps, any_steps, error_steps, log_steps};
ghost use Rattle.chain_meaning.specs.Steps.{file_steps, forward_steps, hosts_steps, template_steps};
ghost use Rattle.chain_meaning.specs.Steps.{whoami_steps};
ghost use Rattle.chain_build.specs.Compiled.{back_of, front_of, middle_of};
ghost use Rattle.chain_build.specs.Places.{answers_in, front_in, middle_in};

use crate::block::BlockChain;
use crate::block_chain::{BackAnswerer, FrontAnswerer, FrontStep};
use crate::places::Places;
use acl_plugin::AclPlan;
use dns_data::{NoMemory, Seq};
use file_plugin::FilePlan;
use forward_plugin::ForwardPlan;
use hosts_plugin::HostsPlan;
use plain_plugins::PlainPlan;
use std::alloc::Global;
use template_plugin::TemplatePlan;

/// Lists what was read rank by rank.
pub fn compile(alloc: Global, places: Places) -> Result<BlockChain, NoMemory>
    ensures front { IfOk result (λ chain. map front_of chain.front ≡ front_in places) }
    ensures dns64 { IfOk result (λ chain. chain.dns64 ≡ places.dns64) }
    ensures middle { IfOk result (λ chain. map middle_of chain.middle ≡ middle_in places) }
    ensures extras { IfOk result (λ chain. chain.extras ≡ places.extras) }
    ensures cache { IfOk result (λ chain. chain.cache ≡ places.cache) }
    ensures rewrites { IfOk result (λ chain. chain.rewrites ≡ places.rewrites) }
    ensures back { IfOk result (λ chain. map back_of chain.back ≡ answers_in places) }
{
    let Places {
        errors,
        logs,
        dns64,
        acls,
        any,
        extras,
        cache,
        rewrites,
        templates,
        hosts,
        files,
        forwards,
        whoami,
        patterns: _,
    } = places;
    let mut front = Seq::new(alloc);
    push_errors(&mut front, errors)?;
    push_logs(&mut front, logs)?;
    let mut middle = Seq::new(alloc);
    push_acls(&mut middle, acls)?;
    push_any(&mut middle, any)?;
    let asks = forwards.len() > 0;
    let back = compile_back(alloc, templates, hosts, files, forwards, whoami)?;
    Ok(BlockChain {
        front,
        dns64,
        middle,
        extras,
        cache,
        rewrites,
        back,
        asks,
        named: None,
    })
}

// Those that stand behind a cache and answer.
fn compile_back(
    alloc: Global,
    templates: Seq<TemplatePlan>,
    hosts: Seq<HostsPlan>,
    files: Seq<FilePlan>,
    forwards: Seq<ForwardPlan>,
    whoami: bool,
) -> Result<Seq<BackAnswerer>, NoMemory>
    ensures { IfOk result (λ back. map back_of back
        ≡ template_steps templates ++ (hosts_steps hosts ++ (file_steps files
        ++ (forward_steps forwards ++ whoami_steps whoami)))) }
{
    let mut back = Seq::new(alloc);
    push_templates(&mut back, templates)?;
    push_hosts(&mut back, hosts)?;
    push_files(&mut back, files)?;
    push_forwards(&mut back, forwards)?;
    push_whoami(&mut back, whoami)?;
    Ok(back)
}

fn push_errors(steps: &mut Seq<FrontStep>, errors: bool) -> Result<(), NoMemory>
    ensures { OnOk result
        (map front_of steps.new ≡ map front_of steps.old ++ error_steps errors) }
{
    if errors {
        return steps.push(FrontStep::Errors);
    }
    Ok(())
}

fn push_logs(steps: &mut Seq<FrontStep>, logs: Seq<PlainPlan>) -> Result<(), NoMemory>
    ensures { OnOk result (map front_of steps.new ≡ map front_of steps.old ++ log_steps logs) }
{
    let mut logs = logs;
    match logs.pop() {
        Some(last) => {
            push_logs(steps, logs)?;
            steps.push(FrontStep::Log(last))
        }
        None => Ok(()),
    }
}

fn push_acls(steps: &mut Seq<FrontAnswerer>, acls: Seq<AclPlan>) -> Result<(), NoMemory>
    ensures { OnOk result (map middle_of steps.new ≡ map middle_of steps.old ++ acl_steps acls) }
{
    if acls.len() > 0 {
        return steps.push(FrontAnswerer::Acl(acls));
    }
    Ok(())
}

fn push_any(steps: &mut Seq<FrontAnswerer>, any: bool) -> Result<(), NoMemory>
    ensures { OnOk result (map middle_of steps.new ≡ map middle_of steps.old ++ any_steps any) }
{
    if any {
        return steps.push(FrontAnswerer::Any);
    }
    Ok(())
}

fn push_templates(
    steps: &mut Seq<BackAnswerer>,
    templates: Seq<TemplatePlan>,
) -> Result<(), NoMemory>
    ensures { OnOk result
        (map back_of steps.new ≡ map back_of steps.old ++ template_steps templates) }
{
    if templates.len() > 0 {
        return steps.push(BackAnswerer::Template(templates));
    }
    Ok(())
}

fn push_hosts(steps: &mut Seq<BackAnswerer>, hosts: Seq<HostsPlan>) -> Result<(), NoMemory>
    ensures { OnOk result (map back_of steps.new ≡ map back_of steps.old ++ hosts_steps hosts) }
{
    let mut hosts = hosts;
    match hosts.pop() {
        Some(last) => {
            push_hosts(steps, hosts)?;
            steps.push(BackAnswerer::Hosts(last))
        }
        None => Ok(()),
    }
}

fn push_files(steps: &mut Seq<BackAnswerer>, files: Seq<FilePlan>) -> Result<(), NoMemory>
    ensures { OnOk result (map back_of steps.new ≡ map back_of steps.old ++ file_steps files) }
{
    if files.len() > 0 {
        return steps.push(BackAnswerer::File(files));
    }
    Ok(())
}

fn push_forwards(steps: &mut Seq<BackAnswerer>, forwards: Seq<ForwardPlan>) -> Result<(), NoMemory>
    ensures { OnOk result
        (map back_of steps.new ≡ map back_of steps.old ++ forward_steps forwards) }
{
    if forwards.len() > 0 {
        return steps.push(BackAnswerer::Forward(forwards));
    }
    Ok(())
}

fn push_whoami(steps: &mut Seq<BackAnswerer>, whoami: bool) -> Result<(), NoMemory>
    ensures { OnOk result
        (map back_of steps.new ≡ map back_of steps.old ++ whoami_steps whoami) }
{
    if whoami {
        return steps.push(BackAnswerer::Whoami);
    }
    Ok(())
}
