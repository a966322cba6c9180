//! Worlds that are legal and that are not.

use crate::rows::{client_event, server_event};
use anyhow::{Result, bail};
use exchange_text::world::write_world;
use net_world::{has_few_conns, legal};
use spec_model::event::{Framing, Shape, WorldEvent};
use std::alloc::Global;

/// More connections than a world may have.
const WIDE: Shape = Shape {
    framing: Framing::Line,
    limit: 64,
    conns: 17,
};

/// The event of a line, of a client or of a server.
fn event(alloc: Global, line: &str) -> Result<WorldEvent> {
    Ok(if line.starts_with(|first: char| first.is_ascii_digit()) {
        WorldEvent::Client(client_event(alloc, &WIDE, line)?)
    } else {
        WorldEvent::Server(server_event(alloc, line)?)
    })
}

/// Puts the event of a line behind others. Answered is whether they are a legal world; and else where it ends to be, and why. The
/// event has to be written as the line.
pub fn answer(alloc: Global, events: &mut Vec<WorldEvent>, line: &str) -> Result<String> {
    let event = event(alloc, line)?;
    let text = format!(in alloc; "world 1\n{line}\nend\n")?;
    let events_alone = vec![in alloc; event]?;
    if write_world(alloc, &events_alone)?.as_slice() != text.as_bytes() {
        bail!("the event is written otherwise");
    }
    events.extend(events_alone)?;
    if !has_few_conns(events) {
        return Ok(String::from_str(alloc, "too many connections")?);
    }
    Ok(match legal(events) {
        Ok(()) => String::from_str(alloc, "legal")?,
        Err((place, why)) => format!(in alloc; "{place} {why:?}")?,
    })
}
