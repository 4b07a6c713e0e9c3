//! Calls of a pool, which are shown to the side and kept for a cache.
ghost use Rattle.std.specs.Prelude.{◌≡◌};
ghost use Rattle.forward_plugin.specs.Forward.{take_drawn};
ghost use Rattle.forward_plugin.specs.PoolUses.{IsOwn, Uses, calls_of};
ghost use Rattle.forward_plugin.specs.Taking.{Forwards, Reports, state_at};

use crate::pool_use::PoolUse;
use dns_data::NoMemory;
use outside::{InnerMark, Kept, Seen, Side};
use std::sync::Wait;
use upstream_health::Drawn;

/// The number of a query, and which upstreams are down.
pub(crate) fn draw<R: Wait, S: Side>(
    rt: &R,
    pool: &mut PoolUse,
    side: &mut S,
    kept: &mut Kept,
) -> Result<Drawn, NoMemory>
    requires own { IsOwn pool.old }
    ensures own { IsOwn pool.new }
    ensures uses { Uses pool.old pool.new }
    ensures asks { Forwards take_drawn result
        (state_at (S.state side.old) kept.old (calls_of pool.old))
        (state_at (S.state side.new) kept.new (calls_of pool.new)) }
{
    let drawn = pool.pool.draw(rt, &mut pool.seat);
    let mark = InnerMark::Drawn(drawn.number, drawn.down);
    side.saw(Seen::Inner(&mark));
    kept.keep(mark)?;
    Ok(drawn)
}

/// A try of an upstream has ended.
pub(crate) fn report<R: Wait, S: Side>(
    rt: &R,
    upstream: u32,
    agreed: bool,
    pool: &mut PoolUse,
    side: &mut S,
    kept: &mut Kept,
) -> Result<(), NoMemory>
    requires own { IsOwn pool.old }
    ensures own { IsOwn pool.new }
    ensures uses { Uses pool.old pool.new }
    ensures reports { Reports upstream agreed result
        (state_at (S.state side.old) kept.old (calls_of pool.old))
        (state_at (S.state side.new) kept.new (calls_of pool.new)) }
{
    pool.pool.report(rt, &mut pool.seat, upstream, agreed);
    let mark = InnerMark::Reported(upstream, agreed);
    side.saw(Seen::Inner(&mark));
    kept.keep(mark)
}
