//! The layout of a world.

ghost use Rattle.std.specs.Prelude.{◌≡◌, ◌++◌, IfOk, OnOk, drop, length, map, take};
ghost use Rattle.std.specs.Vec.Iter.{into_iter_items};
ghost use Rattle.spec_model.specs.declared.event.WorldEvent.TheVariants as worlds;
ghost use Rattle.spec_model.specs.Layout.{laid_out};

use spec_model::Memory;
use spec_model::event::{ClientEvent, ServerEvent, WorldEvent};
use std::alloc::Global;
use std::vec::IntoIter;

/// The world in which the server does, before each event of the exchange, as many of its events as the counts say, and the others
/// behind the last one.
pub fn laid_out(
    alloc: Global,
    exchange: &[ClientEvent],
    counts: &[usize],
    events: Vec<ServerEvent>,
) -> Result<Vec<WorldEvent>, Memory>
    requires { length counts.now ≡ length exchange.now }
    ensures { IfOk result (λ world. world.items ≡ laid_out exchange.now counts.now events.items) }
{
    let mut left = events.into_iter();
    let mut world = Vec::new(alloc);
    for (event, count) in exchange.iter().zip(counts) {
        put_block(&mut world, &mut left, *count)?;
        world.push(WorldEvent::Client(event.copy(alloc)?))?;
    }
    let count = left.len();
    put_block(&mut world, &mut left, count)?;
    Ok(world)
}

/// Moves the next server events into the world, so many or all that are left.
fn put_block(
    world: &mut Vec<WorldEvent>,
    left: &mut IntoIter<ServerEvent>,
    count: usize,
) -> Result<(), Memory>
    ensures block { OnOk result (world.new.items ≡ world.old.items ++ map worlds.Server (take count (into_iter_items left.old))) }
    ensures left { OnOk result (into_iter_items left.new ≡ drop count (into_iter_items left.old)) }
{
    for _ in 0..count {
        let Some(event) = left.next() else {
            return Ok(());
        };
        world.push(WorldEvent::Server(event))?;
    }
    Ok(())
}
