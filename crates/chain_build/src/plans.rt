ghost use Rattle.chain_build.specs.Plans.{ArePlans};

use crate::block::BlockChain;
use corefile_blocks::Bundle;
use dns_data::{Blocks, Directives, Seq, Strings};
use plugin_api::{BlockIndex, Rulebook};
use std::marker::{Model, PhantomData};

/// A configuration as it serves: the bundle, and what it says, read once for all workers.
#[derive(Drop)]
pub struct Plans<B: Rulebook> {
    pub bundle: Bundle,
    /// The port of keys that name none.
    pub default_port: u16,
    /// The names of the program's extras.
    pub names: Strings,
    pub blocks: Blocks,
    /// Which block serves a name.
    pub index: BlockIndex,
    /// The chain of each block.
    pub chains: Seq<BlockChain>,
    /// The directives of extras, block by block.
    pub extras: Seq<Directives>,
    /// The ports of the blocks, in ascending order.
    pub ports: Seq<u16>,
    pub of: PhantomData<B>,
}

impl<B: Rulebook> Model for Plans<B> {
    ghost use Rattle.chain_build.specs.Plans.{ArePlans, PlansData};

    ghost Value = { PlansData };

    ghost view = { λ p. record {
      bundle = p.bundle;
      default_port = p.default_port;
      names = p.names;
      blocks = p.blocks;
      index = p.index;
      chains = p.chains;
      extras = p.extras;
      ports = p.ports;
    } };

    ghost invariant = { λ p. ArePlans B.taken B.said (record {
      bundle = p.bundle;
      default_port = p.default_port;
      names = p.names;
      blocks = p.blocks;
      index = p.index;
      chains = p.chains;
      extras = p.extras;
      ports = p.ports;
    }) };
}

impl<B: Rulebook> Plans<B> {
    /// Tells that what was made is the bundle's. It does nothing.
    #[inline]
    pub fn tell(&self)
        ensures { ArePlans B.taken B.said self.now }
    {
        let _port = self.default_port;
    }
}
