//! What was read before of another configuration.

use crate::block::BlockChain;
use crate::block_chain::BackAnswerer;
use dns_data::{FileText, NoMemory};
use file_plugin::FilePlan;
use hosts_plugin::HostsPlan;
use rewrite_plugin::RewritePlan;
use shared_patterns::SharedPattern;
use std::alloc::Global;
use template_plugin::TemplatePlan;

/// What may be shared with another configuration: zones, hosts tables and patterns.
#[derive(Drop)]
pub(crate) struct Earlier<'a> {
    pub files: Vec<&'a FilePlan>,
    pub hosts: Vec<&'a HostsPlan>,
    pub patterns: Vec<&'a SharedPattern>,
}

/// The files of a bundle, and what was read before of another one.
#[derive(Clone, Copy)]
pub(crate) struct Sources<'a> {
    pub files: &'a [FileText],
    pub earlier: &'a Earlier<'a>,
}

impl<'a> Earlier<'a> {
    pub(crate) fn none(alloc: Global) -> Earlier<'a> {
        Earlier {
            files: Vec::new(alloc),
            hosts: Vec::new(alloc),
            patterns: Vec::new(alloc),
        }
    }

    /// What chains have.
    pub(crate) fn of(alloc: Global, chains: &'a [BlockChain]) -> Result<Earlier<'a>, NoMemory> {
        let mut earlier = Earlier::none(alloc);
        for chain in chains {
            earlier.add_rewrites(chain.rewrites.as_slice())?;
            earlier.add_answerers(chain.back.as_slice())?;
        }
        Ok(earlier)
    }

    fn add_answerers(&mut self, back: &'a [BackAnswerer]) -> Result<(), NoMemory> {
        for answerer in back {
            match answerer {
                BackAnswerer::Template(plans) => self.add_templates(plans.as_slice())?,
                BackAnswerer::Hosts(plan) => self.hosts.push(plan)?,
                BackAnswerer::File(plans) => self.add_files(plans.as_slice())?,
                BackAnswerer::Forward(_) | BackAnswerer::Whoami => {}
            }
        }
        Ok(())
    }

    fn add_files(&mut self, plans: &'a [FilePlan]) -> Result<(), NoMemory> {
        for plan in plans {
            self.files.push(plan)?;
        }
        Ok(())
    }

    fn add_rewrites(&mut self, plans: &'a [RewritePlan]) -> Result<(), NoMemory> {
        for plan in plans {
            plan.push_patterns(&mut self.patterns)?;
        }
        Ok(())
    }

    fn add_templates(&mut self, plans: &'a [TemplatePlan]) -> Result<(), NoMemory> {
        for plan in plans {
            for pattern in plan.patterns() {
                self.patterns.push(pattern)?;
            }
        }
        Ok(())
    }
}
