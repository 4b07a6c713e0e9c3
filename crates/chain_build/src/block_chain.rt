//! The steps of a block's chain.

use crate::block::BlockChain;
use acl_plugin::AclPlan;
use dns_data::Seq;
use file_plugin::FilePlan;
use forward_plugin::ForwardPlan;
use hosts_plugin::HostsPlan;
use plain_plugins::PlainPlan;
use template_plugin::TemplatePlan;

/// A step that notes what the steps behind it decide.
#[derive(Debug, Drop)]
pub enum FrontStep {
    Errors,
    Log(PlainPlan),
}

/// A plugin in front of a cache that answers or goes on.
#[derive(Debug, Drop)]
pub enum FrontAnswerer {
    Acl(Seq<AclPlan>),
    Any,
}

/// A plugin behind a cache, which answers or goes on, and notes nothing. `Forward` alone asks the
/// outside.
#[derive(Drop)]
pub enum BackAnswerer {
    Template(Seq<TemplatePlan>),
    Hosts(HostsPlan),
    File(Seq<FilePlan>),
    Forward(Seq<ForwardPlan>),
    Whoami,
}

/// What is left of a chain: steps that note, and then what stands behind these in the chain.
#[derive(Clone, Copy)]
pub struct ChainRest<'a> {
    pub front: &'a [FrontStep],
    pub behind: &'a BlockChain,
}

/// What is left of a chain behind `dns64`: plugins in front of a cache, and then what stands behind
/// one in the chain.
#[derive(Clone, Copy)]
pub struct MiddleRest<'a> {
    pub middle: &'a [FrontAnswerer],
    pub behind: &'a BlockChain,
}
