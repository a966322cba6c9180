//! The least world with a skeleton.

ghost use Rattle.std.specs.Prelude.{◌≡◌, ◌≤◌, IfOk, length};
ghost use Rattle.spec_model.specs.Least.{IsKeptSkeleton, IsLeastWorld};
ghost use Rattle.spec_model.specs.World.{IsExchange};
ghost use Rattle.hypothesis.specs.Judged.{PicksNothing};

use crate::follower::events_of;
use crate::layout::laid_out;
use dual_tree::dual::Dual;
use hypothesis::along::along;
use hypothesis::course::Along;
use spec_model::Memory;
use spec_model::event::{ClientEvent, Skeleton, WorldEvent};
use spec_rules::checked::Checked;
use std::alloc::Global;

/// The least world with a skeleton that a short run has which explains the exchange. The exchange has at most 4,096 events. The
/// server picks the least texts, and moves as late as it can: before each event of the exchange it makes as many events as the
/// skeleton, followed along the dual, needs there. What it takes and sends is what a server of the specification does that makes one
/// event of each mark.
pub fn explain(
    alloc: Global,
    dual: &Dual,
    spec: &Checked,
    exchange: &[ClientEvent],
    skeleton: &Skeleton,
) -> Result<Vec<WorldEvent>, Memory>
    requires few { length exchange.now ≤ 4096 }
    requires of_shape { IsExchange dual.now.shape exchange.now }
    requires picks_nothing { PicksNothing dual.now.spec }
    requires kept { IsKeptSkeleton dual.now.spec exchange.now skeleton.now }
    requires same { dual.now.spec ≡ spec.now }
    ensures { IfOk result (λ world. IsLeastWorld spec.now exchange.now skeleton.now world.items) }
{
    // That the dual has the specification's shape is said of its nodes: the contract alone speaks of them.
    let _ = dual.nodes();
    let Along { end, blocks } = along(alloc, dual, exchange, skeleton)?;
    let texts = end.facts().least(alloc)?;
    let events = events_of(alloc, spec, exchange, skeleton.as_slice(), texts)?;
    let world = laid_out(alloc, exchange, &blocks, events)?;
    Ok(world)
}
