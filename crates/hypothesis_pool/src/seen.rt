//! What was seen.

ghost use Rattle.std.specs.Prelude.{◌≡◌, ◌<◌, ◌++◌, ◌∷◌, [], OnErr, OnOk, length, vec_capacity, vec_len};
ghost use Rattle.spec_model.specs.declared.event.ClientEvent.TheVariants.{Receives};
ghost use Rattle.hypothesis_pool.specs.Pool.{IsOnConn, with_sent};

use hypothesis::inbox::Inbox;
use spec_model::Memory;
use spec_model::event::ClientEvent;
use spec_model::list::Bytes;
use std::alloc::Global;

/// What a client received, and on which connection.
#[derive(Debug, Drop)]
pub struct Receipt {
    pub conn: u16,
    pub message: Bytes,
}

/// The events fed, and what clients sent in them on each connection.
#[derive(Debug, Drop)]
pub struct Seen {
    pub events: Vec<ClientEvent>,
    pub inbox: Inbox,
}

impl Seen {
    /// Puts an event behind those seen. After an error nothing is changed.
    pub fn push(&mut self, alloc: Global, event: ClientEvent) -> Result<(), Memory>
        requires { IsOnConn (length self.old.inbox) event }
        ensures events { OnOk result (self.new.events.items ≡ self.old.events.items ++ event ∷ []) }
        ensures inbox { OnOk result (self.new.inbox ≡ with_sent self.old.inbox event) }
        ensures err { OnErr result ((self.new.events.items ≡ self.old.events.items) × (self.new.inbox ≡ self.old.inbox)) }
    {
        self.events.reserve(1)?;
        if let ClientEvent::Sends(conn, message) = &event {
            self.inbox.put(alloc, *conn, message.copy(alloc)?)?;
        }
        self.events.push(event).unwrap();
        Ok(())
    }

    /// Makes room for an event more.
    pub fn make_room(&mut self) -> Result<(), Memory>
        ensures room { OnOk result (vec_len self.new.events < vec_capacity self.new.events) }
        ensures events { self.new.events.items ≡ self.old.events.items }
        ensures inbox { self.new.inbox ≡ self.old.inbox }
    {
        self.events.reserve(1)?;
        Ok(())
    }

    /// Puts a receipt behind the events seen, where there is room for it. It takes no memory.
    pub fn keep(&mut self, receipt: Receipt)
        requires { vec_len self.old.events < vec_capacity self.old.events }
        ensures events { self.new.events.items ≡ self.old.events.items ++ Receives receipt.conn receipt.message ∷ [] }
        ensures inbox { self.new.inbox ≡ self.old.inbox }
    {
        let Receipt { conn, message } = receipt;
        self.events
            .push(ClientEvent::Receives(conn, message))
            .unwrap();
    }
}
