//! The two ways on a connection.

ghost use Rattle.std.specs.Prelude.{◌≡◌, option_to_list, [], ◌∷◌};
ghost use Rattle.std.specs.Option.{option_copied};
ghost use Rattle.net_world.specs.Way.{put_in};

use spec_model::event::{ClientEvent, ServerEvent, WorldEvent};
use spec_model::list::Bytes;

/// A way on a connection. Definition: own.
#[derive(Clone, Copy, Debug, PartialEq, Eq)]
pub enum Way {
    /// From the client to the server.
    Up,
    /// From the server to the client.
    Down,
}

impl Way {
    /// The message that an event puts in on this connection, this way.
    pub fn put_in<'e>(self, conn: u16, event: &'e WorldEvent) -> Option<&'e Bytes>
        ensures { option_to_list (option_copied result) ≡ put_in self conn (event.entry.now ∷ []) }
    {
        match (self, event) {
            (Way::Up, WorldEvent::Client(ClientEvent::Sends(other, message))) if *other == conn => {
                Some(message)
            }
            (Way::Down, WorldEvent::Server(ServerEvent::Send(other, message))) if *other == conn =>
                { Some(message) }
            _ => None,
        }
    }
}
