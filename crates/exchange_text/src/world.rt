//! The texts of worlds.

ghost use Rattle.std.specs.Prelude.{◌≡◌, ◌<◌, ◌^◌, IfErr, IfOk, IsErrAnd, List, MatchResult};
ghost use Rattle.spec_model.specs.declared.event.WorldEvent.{WorldEvent};
ghost use Rattle.exchange_text.specs.Text.{UnlessMemory};
ghost use Rattle.exchange_text.specs.WorldText.{FitsWorld, IsWorldRefused, SpellsWorld};
ghost use Rattle.exchange_text.specs.declared.refusal.TextRefusal.{TextRefusal};
ghost use Rattle.exchange_text.specs.declared.refusal.TextRefusal.TheVariants.{Memory};

use crate::line::{behind_first_line, next_event_line};
use crate::refusal::TextRefusal;
use crate::world_line::{put_world_event, read_world_event};
use spec_model::Memory;
use spec_model::event::{Shape, WorldEvent};
use std::alloc::Global;

/// The greatest number of events in the text of a world.
pub const MAX_WORLD_EVENTS: usize = 1_048_576;
/// The greatest number of an arm in the text of a world.
pub const MAX_ARM: u16 = 15;
/// The least number of bytes that are picked in the text of a world.
pub const MIN_PICK: usize = 6;
/// The greatest number of bytes that are picked in the text of a world.
pub const MAX_PICK: usize = 32;

/// The world that a text spells. Its connections and messages are of the shape, the numbers of its arms at most `MAX_ARM`, its
/// picks `MIN_PICK` to `MAX_PICK` bytes of any kind, and it has at most `MAX_WORLD_EVENTS` events; it need not be legal. An error other
/// than `Memory` is the refusal of the text, at the first line that cannot be read. The time is linear in the text's length.
pub fn read_world(alloc: Global, shape: &Shape, text: &[u8]) -> Result<Vec<WorldEvent>, TextRefusal>
    ensures found { IfOk result (λ world. FitsWorld shape.now world.items × SpellsWorld text.now world.items) }
    ensures only { (world : List WorldEvent) → FitsWorld shape.now world → SpellsWorld text.now world →
        MatchResult result (λ read. read.items ≡ world) (λ error. error ≡ Memory) }

    ensures refused { IfErr result (λ error. UnlessMemory error (IsWorldRefused shape.now text.now error)) }
    ensures only_refused { (refusal : TextRefusal) → IsWorldRefused shape.now text.now refusal →
        IsErrAnd result (λ error. UnlessMemory error (error ≡ refusal)) }
{
    read_lines(alloc, *shape, text)
}

/// The world that a text spells, line by line. `range` tells callers what a connection's type says.
fn read_lines(alloc: Global, shape: Shape, text: &[u8]) -> Result<Vec<WorldEvent>, TextRefusal>
    ensures found { IfOk result (λ world. FitsWorld shape world.items × SpellsWorld text.now world.items) }
    ensures refused { IfErr result (λ error. UnlessMemory error (IsWorldRefused shape text.now error)) }
    ensures range { shape.conns < 2 ^ 16 }
{
    let mut rest = behind_first_line(text, b"world 1")?;
    let mut world = Vec::new(alloc);
    loop {
        let number = world.len() + 2;
        let is_full = world.len() == MAX_WORLD_EVENTS;
        let Some((line, behind)) = next_event_line(rest, number, is_full)? else {
            return Ok(world);
        };
        let Some(event) = read_world_event(alloc, shape, line)? else {
            return Err(TextRefusal::BadLine(number));
        };
        world.push(event)?;
        rest = behind;
    }
}

/// The text of a world.
pub fn write_world(alloc: Global, world: &[WorldEvent]) -> Result<Vec<u8>, Memory>
    ensures { IfOk result (λ text. SpellsWorld text.items world.now) }
{
    let mut text = Vec::from_slice(alloc, b"world 1\n")?;
    for event in world {
        put_world_event(&mut text, event)?;
        text.push(b'\n')?;
    }
    text.extend_from_slice(b"end\n")?;
    Ok(text)
}
