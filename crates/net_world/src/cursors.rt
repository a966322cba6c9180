//! Cursors that follow what comes out of each connection.

ghost use Rattle.std.specs.Prelude.{◌≡◌, ◌+◌, ◌<◌, ◌≤◌, length, slice_range, List};
ghost use Rattle.net_world.specs.Cursors.{AllRead, Finds, Passes, cursor, moved};
ghost use Rattle.spec_model.specs.declared.event.WorldEvent.{WorldEvent};

use crate::Why;
use crate::way::Way;
use spec_model::event::WorldEvent;
use spec_model::list::Bytes;

/// For each connection and way, behind which event of a world the messages were put in that did not come out yet.
#[derive(Debug, Drop)]
pub struct Cursors {
    pub up: [usize; 16],
    pub down: [usize; 16],
}

impl Cursors {
    /// All before the first event.
    pub fn new() -> Cursors
        ensures { (world : List WorldEvent) → AllRead result world 0 }
    {
        Cursors {
            up: [0; 16],
            down: [0; 16],
        }
    }

    /// Goes on behind the event that put in this message, which comes out at this place of the world, or says why it may not.
    pub fn pass(
        &mut self,
        world: &[WorldEvent],
        place: usize,
        way: Way,
        conn: u16,
        message: &Bytes,
    ) -> Result<(), Why>
        requires low { conn < 16 }
        requires there { place ≤ length world.now }
        requires behind { cursor way self.old conn ≤ place }
        ensures { Passes way conn message.now (slice_range world.now (cursor way self.old conn) place) self.old self.new result }
    {
        let from = self.at(way, conn);
        let count = find(&world[from..place], way, conn, message)?;
        self.move_to(way, conn, from + count);
        Ok(())
    }

    fn at(&self, way: Way, conn: u16) -> usize
        requires { conn < 16 }
        ensures { result ≡ cursor way self.now conn }
    {
        match way {
            Way::Up => self.up[usize::from(conn)],
            Way::Down => self.down[usize::from(conn)],
        }
    }

    fn move_to(&mut self, way: Way, conn: u16, place: usize)
        requires { conn < 16 }
        ensures { self.new ≡ moved way self.old conn place }
    {
        match way {
            Way::Up => self.up[usize::from(conn)] = place,
            Way::Down => self.down[usize::from(conn)] = place,
        }
    }
}

/// Where among these events the next message was put in on a connection, if it is this one.
fn find(events: &[WorldEvent], way: Way, conn: u16, message: &Bytes) -> Result<usize, Why>
    ensures { Finds way conn message.now events.now result }
{
    for (place, event) in events.iter().enumerate() {
        if let Some(next) = way.put_in(conn, event) {
            return if next.as_slice() == message.as_slice() {
                Ok(place + 1)
            } else {
                Err(Why::Differs)
            };
        }
    }
    Err(Why::Ahead)
}
