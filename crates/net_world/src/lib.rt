//! The network between clients and a server: whether a world is legal, and a network in memory.
#![tactic(auto)]

ghost use Rattle.std.specs.Prelude.{◌≡◌, ◌↔◌, ◌+◌, ◌<◌, IfErr, IsOk, slice_get, take, Some, true};
ghost use Rattle.std.specs.List.{list_all};
ghost use Rattle.net_world.specs.Cursors.{AllRead, Follows};
ghost use Rattle.net_world.specs.Legality.{EndsAt, is_below};
ghost use Rattle.spec_model.specs.World.{IsLegal};

mod cursors;
pub mod laws;
pub mod sim_net;
pub mod way;

use cursors::Cursors;
pub use sim_net::SimNet;
use spec_model::event::{ClientEvent, ServerEvent, WorldEvent};
use way::Way;

/// How many connections a world may have.
pub const CONNS: u16 = 16;

/// Why the legality of a world ends at an event. Definition: own.
#[derive(Clone, Copy, Debug, PartialEq, Eq)]
pub enum Why {
    /// A message was taken or received, and none is under way there.
    Ahead,
    /// A message was taken or received, and another one is to come first.
    Differs,
    /// Garbled bytes came.
    Garbled,
}

/// Whether each connection in a world is below `CONNS`.
pub fn has_few_conns(world: &[WorldEvent]) -> bool
    ensures { result ≡ list_all (is_below CONNS) world.now }
{
    world.iter().all(is_on_low_conn)
}

fn is_on_low_conn(event: &WorldEvent) -> bool
    ensures { result ≡ is_below CONNS event.now }
{
    match event {
        WorldEvent::Client(
            ClientEvent::Sends(conn, _)
            | ClientEvent::Receives(conn, _)
            | ClientEvent::Garbles(conn),
        )
        | WorldEvent::Server(ServerEvent::Take(conn, _) | ServerEvent::Send(conn, _)) => {
            *conn < CONNS
        }
        WorldEvent::Server(_) => true,
    }
}

/// Whether a world, whose connections are below `CONNS`, is legal. Where it is not, the answer has the place from 1 of the first event
/// at which legality ends, and why. It takes no memory. Each connection has a cursor each way, which passes over the world once.
pub fn legal(world: &[WorldEvent]) -> Result<(), (usize, Why)>
    requires { list_all (is_below CONNS) world.now ≡ true }
    ensures legal { IsOk result ↔ IsLegal world.now }
    ensures ends { IfErr result (λ end. EndsAt world.now end.0 end.1) }
{
    let mut cursors = Cursors::new();
    for (place, event) in world.iter().enumerate() {
        if let Err(why) = follow(&mut cursors, world, place, event) {
            return Err((place + 1, why));
        }
    }
    Ok(())
}

/// Goes on to the event at this place of the world, or says why it may not follow.
fn follow(
    cursors: &mut Cursors,
    world: &[WorldEvent],
    place: usize,
    event: &WorldEvent,
) -> Result<(), Why>
    requires low { list_all (is_below CONNS) world.now ≡ true }
    requires there { slice_get world.now place ≡ Some event.now }
    requires before { IsLegal (take place world.now) }
    requires read { AllRead cursors.old world.now place }
    ensures { Follows world.now place event.now cursors.new result }
{
    match event {
        WorldEvent::Client(event) => follow_client(cursors, world, place, event),
        WorldEvent::Server(event) => follow_server(cursors, world, place, event),
    }
}

fn follow_client(
    cursors: &mut Cursors,
    world: &[WorldEvent],
    place: usize,
    event: &ClientEvent,
) -> Result<(), Why>
    requires low { list_all (is_below CONNS) world.now ≡ true }
    requires there { slice_get world.now place ≡ Some (WorldEvent.Client event.now) }
    requires before { IsLegal (take place world.now) }
    requires read { AllRead cursors.old world.now place }
    ensures { Follows world.now place (WorldEvent.Client event.now) cursors.new result }
{
    match event {
        ClientEvent::Sends(_, _) => Ok(()),
        ClientEvent::Receives(conn, message) => {
            cursors.pass(world, place, Way::Down, *conn, message)
        }
        ClientEvent::Garbles(_) => Err(Why::Garbled),
    }
}

fn follow_server(
    cursors: &mut Cursors,
    world: &[WorldEvent],
    place: usize,
    event: &ServerEvent,
) -> Result<(), Why>
    requires low { list_all (is_below CONNS) world.now ≡ true }
    requires there { slice_get world.now place ≡ Some (WorldEvent.Server event.now) }
    requires before { IsLegal (take place world.now) }
    requires read { AllRead cursors.old world.now place }
    ensures { Follows world.now place (WorldEvent.Server event.now) cursors.new result }
{
    match event {
        ServerEvent::Take(conn, message) => cursors.pass(world, place, Way::Up, *conn, message),
        _ => Ok(()),
    }
}
