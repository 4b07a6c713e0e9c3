//! `sinkhole ADDRESS`: an extra that answers every question for an IPv4 address with this one, and
//! its rulebook.

ghost use Rattle.std.specs.Prelude.{◌≡◌, IfOk};
ghost use Rattle.sinkhole_plugin.specs.Sinkhole.{address_in, sink_address, sink_says};

use dns_data::{
    Addr, Answer, Copies, Directive, NoMemory, Query, Rdata, Record, Seq, class, kind, rcode,
};
use plugin_api::{Extra, Rulebook, Verdict};
use std::alloc::Global;

// The directive, and the address that it names.
#[derive(Drop)]
struct Setting {
    directive: Directive,
    address: u32,
    ghost reads: { sink_address directive ≡ address },
}

/// `sinkhole ADDRESS` answers type A with the address, and passes every other type.
#[derive(Drop)]
pub struct Sinkhole {
    setting: Option<Setting>,
}

impl Sinkhole {
    pub fn new() -> Sinkhole {
        Sinkhole { setting: None }
    }
}

/// What is promised of sinkholes.
#[derive(Drop)]
pub struct SinkholeBook;

impl Rulebook for SinkholeBook {
    ghost use Rattle.sinkhole_plugin.specs.Sinkhole.{sink_said, takes_sink};

    ghost taken = { λ name. takes_sink };

    ghost said = { λ name. sink_said };
}

impl Extra for Sinkhole {
    ghost use Rattle.std.specs.Prelude.{codes, option_map};
    ghost use Rattle.sinkhole_plugin.specs.Sinkhole.{sink_said, takes_sink};

    ghost title = { λ s. codes "sinkhole" };

    ghost takes = { λ s. takes_sink };

    ghost ruling = { λ s. sink_said };

    ghost setting = { λ s. option_map (λ x. x.directive) s.setting };

    fn name(&self) -> &[u8] {
        b"sinkhole"
    }

    fn accepts(&self, directive: &Directive) -> bool {
        match read_address(directive) {
            Some(_) => true,
            None => false,
        }
    }

    fn configure(&mut self, alloc: Global, directive: &Directive) -> Result<(), NoMemory> {
        let directive = directive.copy(alloc)?;
        let address = match read_address(&directive) {
            Some(address) => address,
            None => 0,
        };
        self.setting = Some(Setting { directive, address });
        Ok(())
    }

    fn decide(&mut self, alloc: Global, query: &Query) -> Result<Verdict, NoMemory> {
        match &self.setting {
            Some(setting) => decide_by(alloc, setting.address, query),
            None => Ok(Verdict::Pass),
        }
    }
}

// The address that a directive names, where it is one that is taken.
fn read_address(directive: &Directive) -> Option<u32>
    ensures { result ≡ address_in directive.now }
{
    if 0 < directive.body.len() || directive.args.len() != 1 {
        return None;
    }
    match Addr::read(directive.args.at(0).as_str().as_bytes()) {
        Some(Addr::V4(address)) => Some(address),
        _ => None,
    }
}

// What it says by its address.
fn decide_by(alloc: Global, address: u32, query: &Query) -> Result<Verdict, NoMemory>
    ensures { IfOk result (λ v. v ≡ sink_says address query.now) }
{
    if query.kind != kind::A {
        return Ok(Verdict::Pass);
    }
    let mut answer = Seq::with_capacity(alloc, 1)?;
    answer.push(Record::new(query.name.copy(alloc)?, class::IN, 60, Rdata::A(address)))?;
    Ok(Verdict::Reply(Answer {
        rcode: rcode::NOERROR,
        aa: true,
        ra: false,
        tc: false,
        answer,
        authority: Seq::new(alloc),
        additional: Seq::new(alloc),
    }))
}
