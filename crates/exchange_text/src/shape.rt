//! What is of a shape.

ghost use Rattle.std.specs.Prelude.{◌↔◌, IsTrue};
ghost use Rattle.spec_model.specs.World.{IsOfShape};
ghost use Rattle.exchange_text.specs.WorldText.{IsPick, IsServerEvent};

use crate::world::{MAX_ARM, MAX_PICK, MIN_PICK};
use spec_model::event::{ClientEvent, ServerEvent, Shape};

/// Whether an event is of a shape.
pub fn is_of_shape(shape: &Shape, event: &ClientEvent) -> bool
    ensures { IsTrue result ↔ IsOfShape shape.now event.now }
{
    match event {
        ClientEvent::Sends(conn, message) | ClientEvent::Receives(conn, message) => {
            shape.may_pass(*conn, message.as_slice())
        }
        ClientEvent::Garbles(conn) => *conn < shape.conns,
    }
}

/// Whether a server event may stand in a world of a shape.
pub fn is_server_event(shape: &Shape, event: &ServerEvent) -> bool
    ensures { IsTrue result ↔ IsServerEvent shape.now event.now }
{
    match event {
        ServerEvent::Take(conn, message) | ServerEvent::Send(conn, message) => {
            shape.may_pass(*conn, message.as_slice())
        }
        ServerEvent::Arm(arm) => *arm <= MAX_ARM,
        ServerEvent::Test(_) => true,
        ServerEvent::Pick(text) => is_pick(text.as_slice()),
    }
}

/// Whether a specification may pick a text of this length.
fn is_pick(text: &[u8]) -> bool
    ensures { IsTrue result ↔ IsPick text.now }
{
    MIN_PICK <= text.len() && text.len() <= MAX_PICK
}
