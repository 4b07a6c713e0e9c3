ghost use Rattle.std.specs.Prelude.{◌≡◌};
ghost use Rattle.std.specs.Arc.{arc_value};
ghost use Rattle.std.specs.Box.{box_value};
ghost use Rattle.chain_build.specs.Uses.{AreUsed};

use crate::held::Held;
use crate::plans::Plans;
use plugin_api::{Extra, Rulebook};
use std::sync::Arc;

/// A worker's chain of one generation. All of a generation share what was read. Each pin and unpin
/// moves a chain, so what it has for itself is boxed.
#[derive(Drop)]
pub struct Chain<B: Rulebook, E: Extra> {
    pub plans: Arc<Plans<B>>,
    pub held: Box<Held<B, E>>,
    ghost seated: { (box_value held).seats.items ≡ (arc_value plans).extras },
    ghost used: { AreUsed (arc_value plans).chains (box_value held).uses.items },
}
