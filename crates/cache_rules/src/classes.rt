ghost use Rattle.std.specs.Prelude.{◌≡◌, ◌<◌, ◌^◌, IfSome};
ghost use Rattle.cache_rules.specs.Class.{bounded, class_by, class_of, denied, is_denial};
ghost use Rattle.cache_rules.specs.Class.{is_empty, least_ttl, kept_for, soa_life, success_of};

use crate::plan::CachePlan;
use crate::settings::{ClassRules, Settings};
use dns_data::{Answer, Rdata, Record, rcode};
use outside::Class;

/// A class of answers with a lifetime in seconds.
#[derive(Clone, Copy, Debug, PartialEq, Eq)]
pub struct Lived {
    pub class: Class,
    pub life: u32,
}

/// The class and the lifetime of an answer, where a cache keeps it.
pub fn class_of(plan: &CachePlan, answer: &Answer) -> Option<Lived>
    ensures class { result ≡ class_of plan.now answer.now }
    ensures small { IfSome result (λ lived. lived.life < 2 ^ 31) }
{
    class_by(plan.settings(), answer)
}

fn class_by(settings: &Settings, answer: &Answer) -> Option<Lived>
    ensures class { result ≡ class_by settings.now answer.now }
    ensures small { IfSome result (λ lived. lived.life < 2 ^ 31) }
{
    if answer.tc {
        return None;
    }
    if is_denial(answer) {
        return denied(settings, soa_life(answer.authority.as_slice()));
    }
    if answer.rcode == rcode::NOERROR {
        return success_of(settings, answer);
    }
    if answer.rcode == rcode::SERVFAIL {
        return kept_for(true, Class::Servfail, settings.servfail);
    }
    None
}

fn is_denial(answer: &Answer) -> bool
    ensures { result ≡ is_denial answer.now }
{
    answer.rcode == rcode::NXDOMAIN
        || (answer.rcode == rcode::NOERROR && is_empty(answer.answer.as_slice()))
}

fn is_empty(records: &[Record]) -> bool
    ensures { result ≡ is_empty records.now }
{
    match records {
        [] => true,
        [_, ..] => false,
    }
}

#[tactic(auto, using(crate::proofs::Least::least_append))]
fn success_of(settings: &Settings, answer: &Answer) -> Option<Lived>
    ensures class { result ≡ success_of settings.now answer.now }
    ensures small { IfSome result (λ lived. lived.life < 2 ^ 31) }
{
    let mut least = least_ttl(0x7fff_ffff, answer.answer.as_slice());
    least = least_ttl(least, answer.authority.as_slice());
    least = least_ttl(least, answer.additional.as_slice());
    kept_for(
        settings.success.enabled,
        Class::Success,
        bounded(&settings.success, least),
    )
}

fn denied(settings: &Settings, life: Option<u32>) -> Option<Lived>
    ensures class { result ≡ denied settings.now life }
    ensures small { IfSome result (λ lived. lived.life < 2 ^ 31) }
{
    match life {
        Some(life) => kept_for(
            settings.denial.enabled,
            Class::Denial,
            bounded(&settings.denial, life),
        ),
        None => None,
    }
}

fn kept_for(enabled: bool, class: Class, life: u32) -> Option<Lived>
    requires { life < 2 ^ 31 }
    ensures class { result ≡ kept_for enabled class life }
    ensures small { IfSome result (λ lived. lived.life < 2 ^ 31) }
{
    if enabled && life != 0 {
        return Some(Lived { class, life });
    }
    None
}

fn bounded(rules: &ClassRules, life: u32) -> u32
    ensures value { result ≡ bounded rules.now life }
    ensures small { result < 2 ^ 31 }
{
    rules.most.min(rules.least.max(life))
}

fn least_ttl(least: u32, records: &[Record]) -> u32
    ensures { result ≡ least_ttl least records.now }
{
    let mut found = least;
    for entry in records {
        found = found.min(entry.ttl);
    }
    found
}

fn soa_life(records: &[Record]) -> Option<u32>
    ensures { result ≡ soa_life records.now }
{
    for entry in records {
        if let Rdata::Soa(soa) = &entry.rdata {
            return Some(entry.ttl.min(soa.minimum));
        }
    }
    None
}
