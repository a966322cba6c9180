//! Events of clients as lines.

ghost use Rattle.std.specs.Prelude.{◌≡◌, ◌≢◌, ◌++◌, IfNone, IfOk, IfSome, OnOk};
ghost use Rattle.spec_model.specs.World.{IsOfShape};
ghost use Rattle.spec_model.specs.declared.event.ClientEvent.{ClientEvent};
ghost use Rattle.exchange_text.specs.EventLine.{client_line};
ghost use Rattle.exchange_text.specs.LooseReading.{client_event_behind, client_event_of};

use crate::line::split_once;
use crate::shape::is_of_shape;
use crate::token::{number_of, put_number, unquoted};
use spec_model::Memory;
use spec_model::event::{ClientEvent, Shape};
use spec_model::quote::put_quotation;
use std::alloc::Global;

/// Puts the line of a client event at the end, without the LF that ends it.
pub fn put_client_event(out: &mut Vec<u8>, event: &ClientEvent) -> Result<(), Memory>
    ensures { OnOk result (out.new.items ≡ out.old.items ++ client_line event.now) }
{
    match event {
        ClientEvent::Sends(conn, message) => {
            put_number(out, u32::from(*conn))?;
            out.extend_from_slice(b" > ")?;
            put_quotation(out, message.as_slice())
        }
        ClientEvent::Receives(conn, message) => {
            put_number(out, u32::from(*conn))?;
            out.extend_from_slice(b" < ")?;
            put_quotation(out, message.as_slice())
        }
        ClientEvent::Garbles(conn) => {
            put_number(out, u32::from(*conn))?;
            out.extend_from_slice(b" garbles")
        }
    }
}

/// The event of the shape that has this line, if one has it. The line is read loosely, and then compared with the
/// one line of what was read.
pub fn read_client_event(
    alloc: Global,
    shape: Shape,
    line: &[u8],
) -> Result<Option<ClientEvent>, Memory>
    ensures found { IfOk result (λ found. IfSome found (λ event. IsOfShape shape event × (client_line event ≡ line.now))) }
    ensures none { IfOk result (λ found. IfNone found ((event : ClientEvent) → IsOfShape shape event → client_line event ≢ line.now)) }
{
    let Some(event) = read_loosely(alloc, line)? else {
        return Ok(None);
    };
    if !is_of_shape(&shape, &event) {
        return Ok(None);
    }
    let mut spelled = Vec::with_capacity(alloc, line.len())?;
    put_client_event(&mut spelled, &event)?;
    if spelled.as_slice() == line {
        Ok(Some(event))
    } else {
        Ok(None)
    }
}

/// The client event of a line. Of other lines it makes anything.
fn read_loosely(alloc: Global, line: &[u8]) -> Result<Option<ClientEvent>, Memory>
    ensures { IfOk result (λ event. event ≡ client_event_of line.now) }
{
    match split_once(line, b' ') {
        None => Ok(None),
        Some((digits, behind)) => event_behind(alloc, number_of(digits), behind),
    }
}

/// The event of a connection, by what stands behind its number and a space.
fn event_behind(alloc: Global, conn: u16, behind: &[u8]) -> Result<Option<ClientEvent>, Memory>
    ensures { IfOk result (λ event. event ≡ client_event_behind conn behind.now) }
{
    match behind {
        [b'>', _, quotation @ ..] => Ok(Some(ClientEvent::Sends(
            conn,
            unquoted(alloc, quotation)?,
        ))),
        [b'<', _, quotation @ ..] => {
            Ok(Some(ClientEvent::Receives(conn, unquoted(alloc, quotation)?)))
        }
        [_, _, ..] => Ok(Some(ClientEvent::Garbles(conn))),
        _ => Ok(None),
    }
}
