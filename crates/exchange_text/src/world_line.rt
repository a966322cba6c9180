//! Events of worlds as lines.

ghost use Rattle.std.specs.Prelude.{◌≡◌, ◌≢◌, ◌++◌, IfNone, IfOk, IfSome, OnOk};
ghost use Rattle.spec_model.specs.declared.event.WorldEvent.{WorldEvent};
ghost use Rattle.exchange_text.specs.EventLine.{world_line};
ghost use Rattle.exchange_text.specs.WorldText.{IsWorldEvent};

use crate::client_line::{put_client_event, read_client_event};
use crate::server_line::{put_server_event, read_server_event};
use spec_model::Memory;
use spec_model::event::{Shape, WorldEvent};
use std::alloc::Global;

/// Puts the line of an event of a world at the end, without the LF that ends it.
pub fn put_world_event(out: &mut Vec<u8>, event: &WorldEvent) -> Result<(), Memory>
    ensures { OnOk result (out.new.items ≡ out.old.items ++ world_line event.now) }
{
    match event {
        WorldEvent::Client(event) => put_client_event(out, event),
        WorldEvent::Server(event) => put_server_event(out, event),
    }
}

/// The event that may stand in a world of the shape and has this line, if one has it.
pub fn read_world_event(
    alloc: Global,
    shape: Shape,
    line: &[u8],
) -> Result<Option<WorldEvent>, Memory>
    ensures found { IfOk result (λ found. IfSome found (λ event. IsWorldEvent shape event × (world_line event ≡ line.now))) }
    ensures none { IfOk result (λ found. IfNone found ((event : WorldEvent) → IsWorldEvent shape event → world_line event ≢ line.now)) }
{
    if let Some(event) = read_client_event(alloc, shape, line)? {
        return Ok(Some(WorldEvent::Client(event)));
    }
    let event = read_server_event(alloc, shape, line)?;
    Ok(event.map(WorldEvent::Server))
}
