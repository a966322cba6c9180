//! Events of clients, of the server and of worlds.

ghost use Rattle.std.specs.Prelude.{◌≡◌, IfOk};
ghost use Rattle.std.specs.List.{list_all};
ghost use Rattle.spec_model.specs.Message.{is_message, may_pass, may_stand_in_message};

use crate::list::{Bytes, List};
use std::alloc::{AllocError, Global};

/// How messages are delimited on a connection's stream of bytes. Definition: own.
#[derive(Clone, Copy, Debug, PartialEq, Eq)]
pub enum Framing {
    /// A message is followed by one LF, and has none in itself.
    Line,
    /// A message is preceded by its length in two bytes, the greater first.
    Len16,
}

/// The framing, the greatest length of a message in bytes, and the number of connections.
#[derive(Clone, Copy, Debug, PartialEq, Eq)]
pub struct Shape {
    pub framing: Framing,
    pub limit: u16,
    pub conns: u16,
}

/// What a client saw or did on a connection. Connections are numbered from 0.
#[derive(Debug, Drop, PartialEq, Eq)]
pub enum ClientEvent {
    /// The client sent a message.
    Sends(u16, Bytes),
    /// The client received a message.
    Receives(u16, Bytes),
    /// What came from the server begins no message.
    Garbles(u16),
}

/// A visible step of the server; silent work shows none.
#[derive(Debug, Drop, PartialEq, Eq)]
pub enum ServerEvent {
    /// The server took the next message of a connection.
    Take(u16, Bytes),
    /// The server chose an arm of an `either`, numbered from 0.
    Arm(u16),
    /// The server compared two values.
    Test(bool),
    /// The server picked a text.
    Pick(Bytes),
    /// The server sent a message on a connection.
    Send(u16, Bytes),
}

/// An event of a client or of the server.
#[derive(Debug, Drop, PartialEq, Eq)]
pub enum WorldEvent {
    Client(ClientEvent),
    Server(ServerEvent),
}

/// A server event without the message or the text in it.
#[derive(Clone, Copy, Debug, PartialEq, Eq)]
pub enum Mark {
    Take(u16),
    Arm(u16),
    Test(bool),
    Pick,
    Send(u16),
}

/// A run without pick values and message contents.
pub type Skeleton = List<Mark>;

/// What is known of the events fed so far. Events are numbered from 1.
#[derive(Clone, Copy, Debug, PartialEq, Eq)]
pub enum Verdict {
    /// Some run with some legal order of the network explains all of them.
    Open,
    /// The events before this one are explained, and with it they are not.
    Reject(usize),
    /// The budget of hypotheses was passed at this event.
    Inconclusive(usize),
}

impl Framing {
    /// Whether a message may have this byte.
    pub fn may_have(self, byte: u8) -> bool
        ensures { result ≡ may_stand_in_message self byte }
    {
        match self {
            Framing::Line => byte != b'\n',
            Framing::Len16 => true,
        }
    }

    /// Whether a message may have each of these bytes.
    fn may_have_all(self, bytes: &[u8]) -> bool
        ensures { result ≡ list_all (may_stand_in_message self) bytes.now }
    {
        bytes.iter().all(|byte| self.may_have(*byte))
    }
}

impl Shape {
    /// Whether this is a message: at most `limit` bytes, each of which a message may have.
    pub fn is_message(&self, message: &[u8]) -> bool
        ensures { result ≡ is_message self.now message.now }
    {
        message.len() <= usize::from(self.limit) && self.framing.may_have_all(message)
    }

    /// Whether this may pass on this connection: it is a message, and there is such a connection.
    pub fn may_pass(&self, conn: u16, message: &[u8]) -> bool
        ensures { result ≡ may_pass self.now conn message.now }
    {
        conn < self.conns && self.is_message(message)
    }
}

impl ClientEvent {
    /// An equal event.
    pub fn copy(&self, alloc: Global) -> Result<ClientEvent, AllocError>
        ensures { IfOk result (λ event. event ≡ self.now) }
    {
        match self {
            ClientEvent::Sends(conn, message) => Ok(ClientEvent::Sends(
                *conn,
                message.copy(alloc)?,
            )),
            ClientEvent::Receives(conn, message) => {
                Ok(ClientEvent::Receives(*conn, message.copy(alloc)?))
            }
            ClientEvent::Garbles(conn) => Ok(ClientEvent::Garbles(*conn)),
        }
    }
}

impl ServerEvent {
    /// An equal event.
    pub fn copy(&self, alloc: Global) -> Result<ServerEvent, AllocError>
        ensures { IfOk result (λ event. event ≡ self.now) }
    {
        match self {
            ServerEvent::Take(conn, message) => Ok(ServerEvent::Take(*conn, message.copy(alloc)?)),
            ServerEvent::Arm(arm) => Ok(ServerEvent::Arm(*arm)),
            ServerEvent::Test(outcome) => Ok(ServerEvent::Test(*outcome)),
            ServerEvent::Pick(text) => Ok(ServerEvent::Pick(text.copy(alloc)?)),
            ServerEvent::Send(conn, message) => Ok(ServerEvent::Send(*conn, message.copy(alloc)?)),
        }
    }
}

impl WorldEvent {
    /// An equal event.
    pub fn copy(&self, alloc: Global) -> Result<WorldEvent, AllocError>
        ensures { IfOk result (λ event. event ≡ self.now) }
    {
        match self {
            WorldEvent::Client(event) => Ok(WorldEvent::Client(event.copy(alloc)?)),
            WorldEvent::Server(event) => Ok(WorldEvent::Server(event.copy(alloc)?)),
        }
    }
}
